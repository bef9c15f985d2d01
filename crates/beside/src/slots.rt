// Guaranteed time slots, one and their list.
use crate::ask::{Ask, Record};
use crate::dump::{Dump, Dumped, build_all, dump_all};
use crate::text::Text;
use identifiers::ShortAddress;
use octets::{Outcome, Refusal};
use time_slots::{Direction, GuaranteedTimeSlotDescriptor, GuaranteedTimeSlotInformation};

// A direction goes by its name's first letter, whichever bit it has on the air.
impl Dumped for Direction {
    fn dump(self, text: &mut Text<'_>) {
        text.put_u8(match self {
            Direction::Receive => b'r',
            Direction::Transmit => b't',
        });
    }

    fn build(dump: &mut Dump<'_>) -> Self {
        match dump.u8() {
            b't' => Direction::Transmit,
            _ => Direction::Receive,
        }
    }
}

impl Dumped for GuaranteedTimeSlotDescriptor {
    fn dump(self, text: &mut Text<'_>) {
        let short = self.short_address;
        let direction = self.direction;
        short.dump(text);
        text.put_u8(self.starting_slot);
        text.put_u8(self.length);
        direction.dump(text);
    }

    fn build(dump: &mut Dump<'_>) -> Self {
        GuaranteedTimeSlotDescriptor {
            short_address: ShortAddress::build(dump),
            starting_slot: dump.u8(),
            length: dump.u8(),
            direction: Direction::build(dump),
        }
    }
}

impl Record for GuaranteedTimeSlotDescriptor {
    fn reading(s: &[u8], place: usize) -> Result<(Self, usize), Refusal> {
        let read = GuaranteedTimeSlotDescriptor::read(s, place);
        read.outcome.map(|n| (read.slot, n))
    }

    fn writing(self, ask: Ask, room: &mut [u8]) -> Outcome {
        self.write(room, ask.at)
    }
}

impl Dumped for GuaranteedTimeSlotInformation {
    fn dump(self, text: &mut Text<'_>) {
        text.put_flag(self.permit);
        text.put_u8((self.slot_count % 256) as u8);
        dump_all(&self.slots, text);
    }

    fn build(dump: &mut Dump<'_>) -> Self {
        let mut info = GuaranteedTimeSlotInformation::new();
        info.permit = dump.flag();
        info.slot_count = dump.u8() as usize;
        build_all(dump, &mut info.slots);
        info
    }
}

impl Record for GuaranteedTimeSlotInformation {
    fn reading(s: &[u8], place: usize) -> Result<(Self, usize), Refusal> {
        let read = GuaranteedTimeSlotInformation::read(s, place);
        read.outcome.map(|n| (read.guaranteed_time_slot_info, n))
    }

    fn writing(self, ask: Ask, room: &mut [u8]) -> Outcome {
        self.write(room, ask.at)
    }
}
