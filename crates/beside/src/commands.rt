// The answer to a command line (oracle/FORMAT.md).
use crate::ask::{Ask, FILL, MOST_ROOM};
use crate::dump::{Dump, Dumped};
use crate::text::Text;
use crate::values::{dump_constants, dump_orders, known};
use beacon::Beacon;
use frame_control::{AddressMode, FrameType, FrameVersion};
use header::Header;
use identifiers::{ExtendedAddress, PanId, ShortAddress};
use octets::u8_at;
use pending::PendingAddress;
use security::AuxiliarySecurityHeader;
use security_control::SecurityControl;
use superframe::SuperframeSpecification;
use time_slots::{GuaranteedTimeSlotDescriptor, GuaranteedTimeSlotInformation};

// The most bytes that a line can hold in hex.
const MOST_BYTES: usize = 512;

// A small letter reads a record and writes it again, and its capital writes the record that it is given. A letter that
// stands for nothing is taken for a beacon's capital.
fn put_record(kind: u8, dump: Dump<'_>, ask: Ask, room: &mut [u8], text: &mut Text<'_>) {
    let is_small = kind.is_ascii_lowercase();
    match kind.to_ascii_lowercase() {
        b'h' => ask.answer::<Header>(is_small, dump, room, text),
        b's' => ask.answer::<AuxiliarySecurityHeader>(is_small, dump, room, text),
        b'c' => ask.answer::<SecurityControl>(is_small, dump, room, text),
        b'n' => ask.answer::<PanId>(is_small, dump, room, text),
        b'a' => ask.answer::<ShortAddress>(is_small, dump, room, text),
        b'x' => ask.answer::<ExtendedAddress>(is_small, dump, room, text),
        b'f' => ask.answer::<SuperframeSpecification>(is_small, dump, room, text),
        b'e' => ask.answer::<GuaranteedTimeSlotDescriptor>(is_small, dump, room, text),
        b'g' => ask.answer::<GuaranteedTimeSlotInformation>(is_small, dump, room, text),
        b'q' => ask.answer::<PendingAddress>(is_small, dump, room, text),
        b'b' => ask.answer::<Beacon>(is_small, dump, room, text),
        _ => ask.build::<Beacon>(dump, room, text),
    }
}

// The same with the room that the command asks for, and what stands behind its first bytes.
fn put_asked(kind: u8, bytes: &[u8], text: &mut Text<'_>) {
    let mut dump = Dump::of(bytes);
    let ask = Ask::of(&mut dump);
    let mut room = [FILL; MOST_ROOM];
    let n = ask.room.min(MOST_ROOM);
    put_record(kind, dump, ask, &mut room[..n], text);
}

// The size that a header's record tells by itself.
fn put_header_size(bytes: &[u8], text: &mut Text<'_>) {
    let header = Header::build(&mut Dump::of(bytes));
    text.put_decimal(header.get_octet_size());
}

// The payload view.
fn put_view(frame: &[u8], text: &mut Text<'_>) {
    let mut number = 0;
    let view = payload::read(frame);
    text.put_outcome(view.outcome);
    text.put_tab();
    text.put_hex(payload::payload(frame, &mut number));
}

fn put_command(kind: u8, bytes: &[u8], text: &mut Text<'_>) {
    let byte = u8_at(bytes, 0);
    match kind {
        b't' => text.put_outcome(known::<FrameType>(byte)),
        b'v' => text.put_outcome(known::<FrameVersion>(byte)),
        b'm' => text.put_outcome(known::<AddressMode>(byte)),
        b'o' => dump_orders(byte, text),
        b'k' => dump_constants(text),
        b'z' => put_header_size(bytes, text),
        b'p' => put_view(bytes, text),
        _ => put_asked(kind, bytes, text),
    }
}

// Adds the answer to a command line, given without its line feed, and a line feed.
pub(crate) fn put_answer(line: &[u8], out: &mut [u8], at: usize) -> usize {
    let mut bytes = [0u8; MOST_BYTES];
    let n = hexadecimal::decode(line, 2, &mut bytes).min(MOST_BYTES);
    let mut text = Text::new(out, at);
    put_command(u8_at(line, 0), &bytes[..n], &mut text);
    text.put(b'\n');
    text.end()
}
