// What stands in front of an input or a record: where to read, and how to write (oracle/FORMAT.md, "Command lines").
// And the records that are read and written so.
use crate::dump::{Dump, Dumped};
use crate::text::Text;
use octets::{Outcome, Refusal};

// The most room that a command may ask for.
pub(crate) const MOST_ROOM: usize = 256;

// What each byte of the room is beforehand.
pub(crate) const FILL: u8 = 0xa5;

// The place where reading begins, the room, the place where writing begins, and the counter's choice and value. The
// choice is the command line's number (oracle/FORMAT.md): all but 0 and 1 ask for the record's own.
#[derive(Clone, Copy)]
pub(crate) struct Ask {
    place: usize,
    pub(crate) room: usize,
    pub(crate) at: usize,
    choice: u8,
    given: u32,
}

// A record that the library reads and writes.
pub(crate) trait Record: Dumped {
    // What reading it from a place on answers: the record and how many bytes it takes, or the refusal.
    fn reading(s: &[u8], place: usize) -> Result<(Self, usize), Refusal>;

    // What writing it answers.
    fn writing(self, ask: Ask, room: &mut [u8]) -> Outcome;

    // Adds what it tells before its dump and its bytes: nothing but for a security header.
    fn put_size(self, _text: &mut Text<'_>) {}
}

impl Ask {
    pub(crate) fn of(command: &mut Dump<'_>) -> Self {
        Ask {
            place: command.u16() as usize,
            room: command.u16() as usize,
            at: command.u16() as usize,
            choice: command.u8(),
            given: command.u32(),
        }
    }

    // The counter that a writer is handed: none, the one given, or the record's own.
    pub(crate) fn counter(self, own: Option<u32>) -> Option<u32> {
        match self.choice {
            0 => None,
            1 => Some(self.given),
            _ => own,
        }
    }

    // Takes what stands behind it for an input or for a dump.
    pub(crate) fn answer<R: Record>(
        self,
        is_input: bool,
        dump: Dump<'_>,
        room: &mut [u8],
        text: &mut Text<'_>,
    ) {
        if is_input {
            self.read::<R>(dump.rest, room, text);
        } else {
            self.build::<R>(dump, room, text);
        }
    }

    // Reads a record, dumps it and writes it again.
    fn read<R: Record>(self, s: &[u8], room: &mut [u8], text: &mut Text<'_>) {
        let read = R::reading(s, self.place);
        text.put_outcome(read.map(|(_, n)| n));
        let Ok((record, _)) = read else {
            return;
        };
        text.put_tab();
        record.put_size(text);
        record.dump(text);
        text.put_tab();
        let outcome = record.writing(self, room);
        text.put_writing(outcome, room);
    }

    // Builds a record from its dump, and writes it.
    pub(crate) fn build<R: Record>(self, mut dump: Dump<'_>, room: &mut [u8], text: &mut Text<'_>) {
        let record = R::build(&mut dump);
        let outcome = record.writing(self, room);
        record.put_size(text);
        text.put_writing(outcome, room);
    }
}
