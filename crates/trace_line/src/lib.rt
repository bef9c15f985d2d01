// One line of a trace, tick, antenna, header size and bytes in hex, parted by tabs: taken apart, and what its frame
// says.
#![tactic(auto)]

ghost use Rattle.std.specs.Prelude.{◌≤◌, ◌≡◌, length};
ghost use Rattle.octets.specs.Buffer.{laid};
ghost use Rattle.trace_line.specs.Parts.{decimal_field, frame_in, parts_in};
ghost use Rattle.trace_line.specs.Saying.{sender_of, of_source, of_header, Spoken};
ghost use Rattle.header.specs.Read.{read_header};

use address::Address;
use decimal::decimal_at;
use header::Header;
use hexadecimal::decode_by;
use line_cutter::{find, is_at};
use senders::Sender;

// What a line says: it is answered 10; its frame is refused; its frame names no source; or a sender was heard, with a
// sequence number. (That an address has at most eight bytes, `Spoken`, is no invariant of a sender: `row_at` makes one
// of whatever a row holds.)
#[derive(Clone, Copy, Debug, PartialEq, Eq)]
pub enum Saying {
    Unread,
    Refused,
    Sourceless,
    Heard(Sender, u8),
}

// A line that is of its form up to its bytes: its size, how many bytes the digits behind that gave, and the place
// behind these digits.
#[derive(Clone, Copy, Debug, PartialEq, Eq)]
pub struct Parts {
    pub size: u64,
    pub count: usize,
    pub end: usize,
}

// A decimal with a tab behind it: its value, and the place behind the tab.
#[derive(Clone, Copy, Debug, PartialEq, Eq)]
struct Field {
    value: u64,
    end: usize,
}

// A decimal at a place, with the tab behind it, where they are there.
fn decimal_field(s: &[u8], at: usize) -> Option<Field>
    ensures { result ≡ decimal_field s.now at }
{
    let d = decimal_at(s, at);
    let value = d.value?;
    if !is_at(s, d.end, b'\t') {
        return None;
    }
    Some(Field {
        value,
        end: d.end + 1,
    })
}

// Takes a line apart that begins at a place of s, by a lent table of what bytes count for in a pair of digits
// (`hexadecimal::values`), and stores the bytes of its frame from the beginning of a buffer on, as many as have room.
// The antenna holds neither a tab nor the byte stop. Where tick, antenna and size are not there, each with its tab,
// nothing is stored.
pub fn part_at(
    s: &[u8],
    at: usize,
    stop: u8,
    values: &[u16; 256],
    frame: &mut [u8],
) -> Option<Parts>
    ensures value { result ≡ parts_in values.now s.now at stop (length frame.old) }
    ensures frame_after { frame.new
        ≡ laid frame.old 0
        (frame_in values.now s.now at stop (length frame.old)) }
{
    let tick = decimal_field(s, at)?;
    let tab = find(s, tick.end, b'\t', stop);
    if !is_at(s, tab, b'\t') {
        return None;
    }
    let size = decimal_field(s, tab + 1)?;
    let count = decode_by(s, size.end, values, frame);
    Some(Parts {
        size: size.value,
        count,
        end: size.end + 2 * count,
    })
}

// The sender of a source address.
fn sender_of(address: Address) -> Sender
    ensures value { result ≡ sender_of address }
    ensures octets_bound { result.octets ≤ 8 }
{
    match address {
        Address::Short(pan_id, short) => {
            Sender {
                octets: 2,
                pan_id: u64::from(pan_id.0),
                address: u64::from(short.0),
            }
        }
        Address::Extended(pan_id, extended) => {
            Sender {
                octets: 8,
                pan_id: u64::from(pan_id.0),
                address: extended.0,
            }
        }
    }
}

// What a frame of a source says, or of none.
fn of_source(source: Option<Address>, number: u8) -> Saying
    ensures value { result ≡ of_source source number }
    ensures spoken { Spoken result }
{
    match source {
        None => Saying::Sourceless,
        Some(address) => Saying::Heard(sender_of(address), number),
    }
}

// What a frame says whose line names a size.
pub fn say(frame: &[u8], size: u64) -> Saying
    ensures value { result ≡ of_header (read_header frame.now) size }
    ensures spoken { Spoken result }
{
    match Header::read(frame) {
        Err(_) => Saying::Refused,
        Ok((header, _)) => {
            if size == header.get_octet_size() as u64 {
                of_source(header.source, header.seq)
            } else {
                Saying::Unread
            }
        }
    }
}
