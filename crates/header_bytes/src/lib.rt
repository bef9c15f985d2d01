// The header at the beginning of a slice, by its bytes alone: its length or its refusal, told by the bits of its frame
// control. No record is made. What stands in specs/ is what records, measuring and the C entries share.
#![tactic(auto)]

ghost use Rattle.std.specs.Prelude.{◌+◌, ◌≤◌, ◌<◌, not, ◌&&◌, ◌≡◌, ltb, eqb};
ghost use Rattle.octets.specs.{Bits.bits, Bits.bit, Outcome.answered};
ghost use Rattle.header_bytes.specs.Layout.{own_destination, own_source, pan_size, address_size, security_size};
ghost use Rattle.header_bytes.specs.Layout.{destination_end, source_end, header_end};
ghost use Rattle.header_bytes.specs.Reading.{unshared, field_tests, measured};
ghost use Rattle.header_bytes.specs.Rewriting.{sourceless};

use octets::{Outcome, Refusal, u8_at, u16_at};

// Bytes of an address by its compression bit and the number of its mode, 2 short or 3 extended: its PAN id (2), unless
// it is compressed, and its address (2 or 8). Asks that these are one bit and two. (No record is made here, and a mode
// would be made of its bits only to be matched.)
fn address_size(compressed: usize, mode: usize) -> usize
    requires compressed_bound { compressed < 2 }
    requires mode_bound { mode < 4 }
    ensures value { result ≡ pan_size (not (eqb compressed 1) && ltb 1 mode) + address_size mode }
    ensures upper_bound { result ≤ 10 }
{
    match 4 * compressed + mode {
        2 => 4,
        3 => 10,
        6 => 2,
        7 => 8,
        _ => 0,
    }
}

// The destination's PAN id stands in the frame, by a frame control.
pub fn own_destination(w: usize) -> bool
    ensures { result ≡ own_destination (bits w 10 2) (bits w 14 2) (bit w 6) }
{
    1 < w / 1024 % 4
}

// The source's PAN id stands in the frame, by a frame control.
pub fn own_source(w: usize) -> bool
    ensures { result ≡ own_source (bits w 10 2) (bits w 14 2) (bit w 6) }
{
    w / 64 % 2 != 1 && 1 < w / 16384 % 4
}

// Where the destination ends by a frame control.
pub fn destination_end(w: usize) -> usize
    ensures value { result ≡ destination_end w }
    ensures upper_bound { result ≤ 13 }
{
    3 + address_size(0, w / 1024 % 4)
}

// Where the source ends by a frame control.
pub fn source_end(w: usize) -> usize
    ensures value { result ≡ source_end w }
    ensures upper_bound { result ≤ 23 }
{
    destination_end(w) + address_size(w / 64 % 2, w / 16384 % 4)
}

// Bytes of a security part by the number of its key mode: control and frame counter are 5, and then there is nothing,
// an index (1), a source (4) and an index, or a source (8) and an index.
fn security_size(mode: u8) -> usize
    ensures value { result ≡ security_size mode }
    ensures upper_bound { result ≤ 14 }
{
    match mode {
        0 => 5,
        1 => 6,
        2 => 10,
        _ => 14,
    }
}

// Where the header ends by a frame control, and by the security control where the source ends, at the place that is
// handed over.
fn header_end(s: &[u8], w: usize, at: usize) -> usize
    requires at_value { at ≡ source_end w }
    requires at_bound { at ≤ 23 }
    ensures value { result ≡ header_end s.now w }
    ensures upper_bound { result ≤ 37 }
{
    if w / 8 % 2 == 1 {
        at + security_size(u8_at(s, at) / 8 % 4)
    } else {
        at
    }
}

// Compression without a source, which reading accepts and writing refuses with 6.
pub fn sourceless(w: usize) -> bool
    ensures { result ≡ sourceless w }
{
    w / 64 % 2 == 1 && w / 16384 % 4 == 0
}

// Compression without a destination whose PAN id could be shared.
fn unshared(w: usize) -> bool
    ensures { result ≡ unshared w }
{
    w / 64 % 2 == 1 && w / 1024 % 4 == 0
}

// What stands behind a frame control that is known.
fn measure_fields(s: &[u8], w: usize) -> Outcome
    ensures { result ≡ answered (field_tests s.now w) (header_end s.now w) }
{
    if s.len() < destination_end(w) {
        return Err(Refusal::Ended);
    }
    if unshared(w) {
        return Err(Refusal::NoDestination);
    }
    let at = source_end(w);
    if s.len() < at {
        return Err(Refusal::Ended);
    }
    let end = header_end(s, w, at);
    if s.len() < end {
        return Err(Refusal::Ended);
    }
    Ok(end)
}

// What reading the header at the beginning of a slice answers: its length, or the first refusal. `quick` has a faster
// one under the same contract; both have edits of their own, and the law that they agree.
pub fn measure_header(s: &[u8]) -> Outcome
    ensures { result ≡ measured s.now }
{
    if s.len() < 3 {
        return Err(Refusal::Ended);
    }
    let w = u16_at(s, 0) as usize;
    if w / 4096 % 4 == 3 {
        return Err(Refusal::Version);
    }
    if w % 8 == 4 {
        return Err(Refusal::FrameType);
    }
    if w / 1024 % 4 == 1 {
        return Err(Refusal::AddressMode);
    }
    if w / 16384 % 4 == 1 {
        return Err(Refusal::AddressMode);
    }
    measure_fields(s, w)
}
