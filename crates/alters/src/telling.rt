// The answer to one line, stored into a buffer: as much of it as has room.
ghost use Rattle.std.specs.Prelude.{◌∷◌, map, ◌≡◌};
ghost use Rattle.hexadecimal.specs.Hex.{worths};
ghost use Rattle.line_cutter.specs.Line.{tab_byte};
ghost use Rattle.labelled.specs.Put.{Put};
ghost use Rattle.alterations.specs.Bytes.{pair};
ghost use Rattle.alters.specs.Answer.{space, told, column, outcome_told, said, answer};
ghost use Rattle.alters.specs.Bits.{bits_below, bits_of};
ghost use Rattle.alters.specs.Steps.{marked, next_mark};

use alterations::{AlteredByte, altered_bits};
use labelled::{FRAME_MOST, part, put_bad, put_byte, put_decimal};
use octets::{Outcome, copy, number_of};

// How far the bits are told: the mark that goes before the next one, and the place behind what was stored.
#[derive(Clone, Copy)]
struct Told {
    mark: u8,
    next: usize,
}

impl Told {
    // Stores a bit behind its mark: the place of its byte, a dot, and its number there.
    fn put_bit(self, place: u8, bit: u8, out: &mut [u8]) -> Told
        ensures put { Put out.old self.next (self.mark ∷ told (place, bit)) out.new result.next }
        ensures mark_value { result.mark ≡ space }
    {
        let next = put_byte(self.mark, out, self.next);
        let next = put_decimal(place as usize, out, next);
        let next = put_byte(b'.', out, next);
        let next = put_decimal(bit as usize, out, next);
        Told { mark: b' ', next }
    }

    // Stores the bits that are set in the mask of a byte.
    fn put_mask(self, byte: AlteredByte, out: &mut [u8]) -> Told
        ensures put { Put out.old self.next (marked self.mark (bits_below byte.place byte.mask 8))
            out.new result.next }
        ensures mark_value { result.mark ≡ next_mark self.mark (bits_below byte.place byte.mask 8) }
    {
        let mut told = self;
        for bit in 0..8 {
            if (byte.mask >> bit) % 2 == 1 {
                told = told.put_bit(byte.place, bit, out);
            }
        }
        told
    }
}

// Stores the bits of bytes, behind a tab.
fn put_masks(bytes: &[AlteredByte], out: &mut [u8], at: usize) -> Told
    ensures put { Put out.old at (marked tab_byte (bits_of (map pair bytes.now))) out.new result.next }
    ensures mark_value { result.mark ≡ next_mark tab_byte (bits_of (map pair bytes.now)) }
{
    let mut told = Told {
        mark: b'\t',
        next: at,
    };
    for byte in bytes {
        told = told.put_mask(*byte, out);
    }
    told
}

// Stores the column of bits: a dash where there is none.
fn put_column(bytes: &[AlteredByte], out: &mut [u8], at: usize) -> usize
    ensures { Put out.old at (column (bits_of (map pair bytes.now))) out.new result }
{
    let told = put_masks(bytes, out, at);
    if told.mark == b'\t' {
        let next = put_byte(b'\t', out, told.next);
        return put_byte(b'-', out, next);
    }
    told.next
}

// Stores the columns of number and length.
fn put_outcome(o: Outcome, out: &mut [u8], at: usize) -> usize
    ensures { Put out.old at (outcome_told o) out.new result }
{
    let next = put_byte(b'\t', out, at);
    let next = put_decimal(number_of(o) as usize, out, next);
    let next = put_byte(b'\t', out, next);
    put_decimal(o.unwrap_or(0), out, next)
}

// Stores what is said of a frame.
fn put_said(frame: &[u8], out: &mut [u8], at: usize) -> usize
    ensures { Put out.old at (said frame.now) out.new result }
{
    let list = altered_bits(frame);
    let next = put_outcome(list.outcome, out, at);
    let next = put_column(list.bytes.as_slice(), out, next);
    put_byte(b'\n', out, next)
}

// Stores the answer to a line, given without its line feed. Asks for the values of hex digits.
pub(crate) fn put_answer(line: &[u8], values: &[u16; 256], out: &mut [u8], at: usize) -> usize
    requires { values.now ≡ worths 256 }
    ensures { Put out.old at (answer line.now) out.new result }
{
    let mut frame = [0u8; FRAME_MOST];
    let Ok(parted) = part(line, values, &mut frame) else {
        return put_bad(out, at);
    };
    let next = copy(&line[..parted.tab], out, at);
    put_said(&frame[..parted.count], out, next)
}
