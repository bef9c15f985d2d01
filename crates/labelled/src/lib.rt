// A line that is a label, a tab and a frame in hex: taken apart, and what is stored to answer it. A store takes as much
// as has room and returns the place behind it, so that nothing is asked of a caller. By hand, and not by Display: the
// clauses say what a buffer of any size then holds, also where its room ends.
#![tactic(auto)]

ghost use Rattle.std.specs.Prelude.{◌%◌, [], ◌∷◌, ◌≡◌, length};
ghost use Rattle.octets.specs.Buffer.{laid};
ghost use Rattle.labelled.specs.Answer.{bad};
ghost use Rattle.labelled.specs.Decimal.{decimal, column};
ghost use Rattle.labelled.specs.Hexed.{hex_digit, hex_by, hexed};
ghost use Rattle.labelled.specs.Parted.{frame_by, parted};
ghost use Rattle.labelled.specs.Put.{Put};

use hexadecimal::decode_by;
use line_cutter::{LINE_MOST, find};
use octets::{copy, left};

// Room for the bytes that the digits of a line stand for.
pub const FRAME_MOST: usize = 512;

// A line taken apart: where its first tab stands, or its end, and how many bytes the digits behind that gave.
#[derive(Clone, Copy, Debug, PartialEq, Eq)]
pub struct Parted {
    pub tab: usize,
    pub count: usize,
}

// Takes a line apart, given without its line feed, by a lent table of what bytes count for in a pair of digits
// (`hexadecimal::values`), and stores the bytes of its frame from the beginning of a buffer on, as many as have room.
// A line that is not of its form is refused with as much as was found of it, and one that is too long with zeros.
pub fn part(line: &[u8], values: &[u16; 256], frame: &mut [u8]) -> Result<Parted, Parted>
    ensures value { result ≡ parted values.now line.now (length frame.old) }
    ensures frame_after { frame.new
        ≡ laid frame.old 0
        (frame_by values.now line.now (length frame.old)) }
{
    if line.len() > LINE_MOST {
        return Err(Parted { tab: 0, count: 0 });
    }
    let tab = find(line, 0, b'\t', b'\t');
    let count = decode_by(line, tab + 1, values, frame);
    let whole = tab + 1 + 2 * count == line.len();
    if whole {
        Ok(Parted { tab, count })
    } else {
        Err(Parted { tab, count })
    }
}

// Stores a byte.
pub fn put_byte(byte: u8, out: &mut [u8], at: usize) -> usize
    ensures { Put out.old at (byte ∷ []) out.new result }
{
    if at < out.len() {
        out[at] = byte;
        return at + 1;
    }
    at
}

// Stores `bad` and a line feed, byte by byte where all of it has room.
pub fn put_bad(out: &mut [u8], at: usize) -> usize
    ensures { Put out.old at bad out.new result }
{
    if left(out, at) < 4 {
        return copy(b"bad\n", out, at);
    }
    out[at] = b'b';
    out[at + 1] = b'a';
    out[at + 2] = b'd';
    out[at + 3] = b'\n';
    at + 4
}

// Stores a number in decimal.
pub fn put_decimal(n: usize, out: &mut [u8], at: usize) -> usize
    ensures { Put out.old at (decimal n) out.new result }
{
    let mut digits = [0u8; 20];
    let mut rest = n;
    let mut from = 20;

    // Kept as a while: what is left of the number ends it, and a for over the places would have an end that none
    // reaches.
    while rest > 9 {
        from -= 1;
        digits[from] = b'0' + (rest % 10) as u8;
        rest /= 10;
    }
    from -= 1;
    digits[from] = b'0' + rest as u8;
    copy(&digits[from..], out, at)
}

// Stores a tab and a number in decimal.
pub fn put_column(n: usize, out: &mut [u8], at: usize) -> usize
    ensures { Put out.old at (column n) out.new result }
{
    let next = put_byte(b'\t', out, at);
    put_decimal(n, out, next)
}

// The last digit of a number in hex, in lower case.
pub fn last_hex_digit(n: u64) -> u8
    ensures { result ≡ hex_digit (n % 16) }
{
    let digit = (n % 16) as u8;
    if digit < 10 {
        b'0' + digit
    } else {
        b'a' + (digit - 10)
    }
}

// Stores a byte in hex, the high digit first.
fn put_pair(byte: u8, out: &mut [u8], at: usize) -> usize
    ensures { Put out.old at (hex_by 2 byte) out.new result }
{
    let number = u64::from(byte);
    let high = last_hex_digit(number / 16);
    let low = last_hex_digit(number);
    let next = put_byte(high, out, at);
    put_byte(low, out, next)
}

// Stores bytes in hex, two digits to each, or a dash where there is none.
pub fn put_bytes(bytes: &[u8], out: &mut [u8], at: usize) -> usize
    ensures { Put out.old at (hexed bytes.now) out.new result }
{
    if bytes.is_empty() {
        return put_byte(b'-', out, at);
    }
    let mut next = at;
    for byte in bytes {
        next = put_pair(*byte, out, next);
    }
    next
}
