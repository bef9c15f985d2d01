// Bytes in hex, two digits of either case to a byte. The table of values is made once for many lines and lent.
#![tactic(auto)]

ghost use Rattle.std.specs.Prelude.{◌+◌, ◌-◌, ◌*◌, ◌/◌, min, ◌≡◌, length};
ghost use Rattle.octets.specs.Buffer.{laid};
ghost use Rattle.hexadecimal.specs.Hex.{worth, worths, decoded, decoded_by};

use octets::left;

// The value of a digit, and 256 of a byte that is none: with it a pair of digits is more than a byte.
#[tactic(auto, unfolding(crate::specs::Hex::digit))]
fn value(b: u8) -> u16
    ensures { result ≡ worth b }
{
    match b {
        b'0'..=b'9' => u16::from(b - b'0'),
        b'A'..=b'F' => u16::from(b - b'A' + 10),
        b'a'..=b'f' => u16::from(b - b'a' + 10),
        _ => 256,
    }
}

// The table of what each byte counts for in a pair of digits.
pub fn values() -> [u16; 256]
    ensures { result ≡ worths 256 }
{
    let mut table = [256; 256];
    // A byte that is no digit counts as any other: only the digits are looked at.
    for b in b"0123456789ABCDEFabcdef" {
        table[*b as usize] = value(*b);
    }
    table
}

// How many pairs of digits there can be from a place of s on, with room for a byte each.
fn most(s: &[u8], at: usize, room: usize) -> usize
    ensures { result ≡ min ((length s.now - at) / 2) room }
{
    (left(s, at) / 2).min(room)
}

// What two digits make, by what each counts for.
fn pair_of(high: u16, low: u16) -> u32
    ensures { result ≡ 16 * high + low }
{
    16 * u32::from(high) + u32::from(low)
}

// Decodes the pairs of digits from a place of s on into out, by a lent table of what each byte counts for, up to the
// first pair that makes more than a byte or the end of out's room, and returns how many bytes that gave.
pub fn decode_by(s: &[u8], at: usize, values: &[u16; 256], out: &mut [u8]) -> usize
    ensures value { result ≡ length (decoded_by values.now s.now at (length out.old)) }
    ensures out_after { out.new
        ≡ laid out.old 0
        (decoded_by values.now s.now at (length out.old)) }
{
    let end = most(s, at, out.len());
    // Over places: two digits of s make one byte of out.
    for n in 0..end {
        let high = values[s[at + 2 * n] as usize];
        let low = values[s[at + 2 * n + 1] as usize];
        let pair = pair_of(high, low);
        if pair > 255 {
            return n;
        }
        out[n] = pair as u8;
    }
    end
}

// The same with the table of `values`: up to the first pair that is not two digits. The digits are whole, neither odd
// nor foreign, where twice as many as the bytes end s.
pub fn decode(s: &[u8], at: usize, out: &mut [u8]) -> usize
    ensures value { result ≡ length (decoded s.now at (length out.old)) }
    ensures out_after { out.new
        ≡ laid out.old 0 (decoded s.now at (length out.old)) }
{
    let values = values();
    decode_by(s, at, &values, out)
}
