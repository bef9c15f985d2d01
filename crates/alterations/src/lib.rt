// Every bit that rewriting alters in a given frame, told before it is written: the frame is measured, no record is made
// and no byte is copied. A frame is rewritten as a bridge does it, the header and, in an unsecured frame of type 0, the
// beacon behind it.
#![tactic(auto)]

ghost use Rattle.std.specs.Prelude.{◌≤◌, ◌<◌, [], ◌∷◌, ◌++◌, map, ◌≡◌, eqb, length, get_or};
ghost use Rattle.alterations.specs.Bytes.{pair};
ghost use Rattle.alterations.specs.Listed.{header_bits, direction_bits, beacon_bits, holds_beacon, listed};
ghost use Rattle.alterations.specs.Rewriting.{rewrite_frame};
ghost use Rattle.alterations.specs.Altered.{mask, span, altered_at, altered_in, alterations, leaves_alone};

use beacon_measure::{measure_beacon, time_slots_length};
use bit_span::BitSpan;
use header_bytes::{measure_header, source_end, sourceless};
use octets::{Outcome, Refusal, u8_at, u16_at};
use std::marker::Model;

// A byte that rewriting alters: its place in the frame, and the mask of its bits that go from 1 to 0. Such a place is
// below 100.
#[derive(Clone, Copy, Debug, PartialEq, Eq)]
pub struct AlteredByte {
    pub place: u8,
    pub mask: u8,
}

// Up to six of them, in the order of the bytes, in an array with a count, since no heap is used: 16 bytes in all, which
// are made and copied at once, as a refused frame pays for them too (docs/SPEED.md). Entries behind these are 0. What
// notes asks for room and does not test it: no frame has more than six.
#[derive(Clone, Copy)]
pub struct AlteredBytes {
    bytes: [AlteredByte; 6],
    count: u32,
}

// Clauses see the list of places and masks.
impl Model for AlteredBytes {
    ghost use Rattle.std.specs.Prelude.{ℕ, ◌-◌, ◌≤◌, ◌≡◌, List, length, map, take, drop};
    ghost use Rattle.alterations.specs.Bytes.{pair, altered_byte, zeros, in_six, same_bytes, same_count};

    ghost Value = { List (ℕ × ℕ) };

    ghost view = { λ l. map pair (take l.count l.bytes) };

    ghost invariant = { λ l. (length l.bytes ≡ 6) × (l.count ≤ 6) × (drop l.count l.bytes ≡ zeros (6 - l.count)) };

    ghost inverse = { λ l. record { bytes = in_six l; count = length l } };

    ghost inverse_ok = { λ a h. λ i. record { bytes = same_bytes a.bytes a.count h.0 h.1 h.2 i; count = same_count a.bytes a.count h.0 h.1 i } };
}

impl AlteredBytes {
    // The empty list.
    fn new() -> Self
        ensures { result ≡ [] }
    {
        AlteredBytes {
            bytes: [AlteredByte { place: 0, mask: 0 }; 6],
            count: 0,
        }
    }

    // The bytes of the list.
    pub fn as_slice(&self) -> &[AlteredByte]
        ensures value { map pair result.now ≡ self.now }
        ensures upper_bound { length result.now ≤ 6 }
    {
        &self.bytes[..self.count as usize]
    }

    // Notes a byte's place and mask, unless the mask is 0. Asks for room.
    fn note(&mut self, place: u8, mask: u8)
        requires { length self.old < 6 }
        ensures { self.new ≡ self.old ++ altered_at place mask }
    {
        if mask != 0 {
            self.bytes[self.count as usize] = AlteredByte { place, mask };
            self.count += 1;
        }
    }

    // Notes those bits that are set in the byte at a place. Asks for room.
    fn note_bits(&mut self, frame: &[u8], place: u8, bits: BitSpan)
        requires { length self.old < 6 }
        ensures { self.new ≡ self.old ++ altered_at place (mask (span bits.at bits.count) (get_or frame.now place 0)) }
    {
        self.note(place, bits.held(u8_at(frame, place as usize)));
    }

    // Notes the bits of a header, by its frame control. Asks that nothing is noted yet.
    fn note_header(&mut self, frame: &[u8], w: usize)
        requires { self.old ≡ [] }
        ensures { self.new ≡ altered_in frame.now (header_bits w) }
    {
        self.note_bits(frame, 0, BitSpan { at: 7, count: 1 });
        self.note_bits(frame, 1, BitSpan { at: 0, count: 2 });
        if w / 8 % 2 == 1 {
            self.note_bits(frame, source_end(w) as u8, BitSpan { at: 5, count: 3 });
        }
    }

    // Notes the direction bits of a beacon that belong to none of its n slots, by the place of its direction byte. Asks
    // for room, and for n below 8.
    fn note_directions(&mut self, frame: &[u8], n: u8, place: u8)
        requires n_bound { n < 8 }
        requires room { length self.old < 6 }
        ensures { self.new ≡ self.old ++ altered_in frame.now (direction_bits n place) }
    {
        if n != 0 {
            let past = BitSpan {
                at: n,
                count: 8 - n,
            };
            self.note_bits(frame, place, past);
        }
    }

    // Notes the bits of the beacon at a place of a frame. Asks for a place where a header can end, and for room for
    // four.
    fn note_beacon(&mut self, frame: &[u8], at: u8)
        requires at_bound { at ≤ 23 }
        requires room { length self.old ≤ 2 }
        ensures { self.new ≡ self.old ++ altered_in frame.now (beacon_bits frame.now at) }
    {
        self.note_bits(frame, at + 1, BitSpan { at: 5, count: 1 });
        self.note_bits(frame, at + 2, BitSpan { at: 3, count: 4 });
        let slots = (at + 2) as usize;
        let n = u8_at(frame, slots) % 8;
        self.note_directions(frame, n, at + 3);
        let pending = at + 2 + (time_slots_length(frame, slots) as u8);
        self.note(pending, pending_mask(u8_at(frame, pending as usize)));
    }

    // Notes the bits of a frame. Asks that nothing is noted yet.
    fn note_frame(&mut self, frame: &[u8])
        requires { self.old ≡ [] }
        ensures { self.new ≡ altered_in frame.now (listed frame.now) }
    {
        let w = u16_at(frame, 0) as usize;
        self.note_header(frame, w);
        if holds_beacon(w) {
            self.note_beacon(frame, source_end(w) as u8);
        }
    }
}

// The answer of rewriting a frame, and the bits that it alters: none where rewriting is refused.
#[derive(Clone, Copy)]
pub struct Alterations {
    pub outcome: Outcome,
    pub bytes: AlteredBytes,
}

// Whether a frame holds a beacon that is looked at, by its frame control: type 0 and no security.
fn holds_beacon(w: usize) -> bool
    ensures { result ≡ holds_beacon w }
{
    w % 16 == 0
}

// What rewriting a frame answers: the refusals of reading it, then the one of writing that is left.
fn rewriting(frame: &[u8]) -> Outcome
    ensures { result ≡ rewrite_frame frame.now }
{
    let header = measure_header(frame)?;
    let w = u16_at(frame, 0) as usize;
    if !holds_beacon(w) {
        if sourceless(w) {
            return Err(Refusal::MissingAddress);
        }
        return Ok(header);
    }
    let beacon = measure_beacon(frame, header)?;
    if sourceless(w) {
        return Err(Refusal::MissingAddress);
    }
    Ok(header + beacon)
}

// The mask of a pending header: its bits 3 and 7, where they are set.
fn pending_mask(header: u8) -> u8
    ensures { result ≡ mask (3 ∷ 7 ∷ []) header }
{
    header / 8 % 2 * 8 + header / 128 * 128
}

// What rewriting a frame answers, and every bit that it alters.
pub fn altered_bits(frame: &[u8]) -> Alterations
    ensures { result ≡ alterations frame.now }
{
    let outcome = rewriting(frame);
    if outcome.is_err() {
        return Alterations {
            outcome,
            bytes: AlteredBytes::new(),
        };
    }
    let mut bytes = AlteredBytes::new();
    bytes.note_frame(frame);
    Alterations { outcome, bytes }
}

// Whether rewriting a frame is accepted and alters nothing.
pub fn leaves_alone(frame: &[u8]) -> bool
    ensures { result ≡ leaves_alone frame.now }
{
    let list = altered_bits(frame);
    list.outcome.is_ok() && list.bytes.as_slice().is_empty()
}
