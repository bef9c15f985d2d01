// The quick reader: length or refusal of the header at the beginning of a slice, by one look at its frame control. A
// table says for each choice of compression, security and bits 10 to 15 which refusal it is, or how long the header is
// up to its security control. No record is made.
#![tactic(auto)]

ghost use Rattle.std.specs.Prelude.{◌+◌, ◌*◌, ◌≤◌, ◌<◌, [], ◌∷◌, ◌≡◌, ltb};
ghost use Rattle.header_bytes.specs.{Layout.security_size, Reading.measured};
ghost use Rattle.octets.specs.{Outcome.code_of, Outcome.answered, declared.Refusal.TheVariants.Ended};
ghost use Rattle.quick.specs.Table.{index_of, entry_of, table_at};

mod rows;

use octets::{Outcome, Refusal};
use rows::row;

// The table. A digit is a refusal, a small letter a length: `c` is 3 bytes, `x` is 24. A line is a source mode and a
// version; its four groups are the destination modes; and within a group stand neither, compression, security, both.
// Bytes, as document 01 asks for a constant array of 256 entries, each a refusal or a length.
const TABLE: [u8; 256] = *b"\
    c5d54444gghhmmnn\
    c5d54444gghhmmnn\
    c5d54444gghhmmnn\
    2222222222222222\
    4444444444444444\
    4444444444444444\
    4444444444444444\
    2222222222222222\
    g5h54444kiljqorp\
    g5h54444kiljqorp\
    g5h54444kiljqorp\
    2222222222222222\
    m5n54444qorpwuxv\
    m5n54444qorpwuxv\
    m5n54444qorpwuxv\
    2222222222222222";

// What the table has at an index.
pub fn entry(i: u8) -> u8
    ensures { result ≡ table_at i }
{
    TABLE[i as usize]
}

// The index of a frame control, by its two bytes: bits 10 to 15, security and compression.
#[tactic(auto, using(crate::proofs::Bytes::upper_bits))]
fn index(a: u8, b: u8) -> usize
    ensures value { result ≡ index_of (a + 256 * b) }
    ensures upper_bound { result < 256 }
{
    let low = a as usize;
    let high = b as usize;
    (high >> 2) * 4 + (low >> 3) % 2 * 2 + (low >> 6) % 2
}

// What the table says of a frame control, by its two bytes.
fn look(a: u8, b: u8) -> u8
    ensures { result ≡ entry_of (a + 256 * b) }
{
    let i = index(a, b);
    ((row(i / 4) >> (i % 4 * 8)) % 256) as u8
}

// Bytes of a security part behind its control, by the number of its key mode: the frame counter (4), and nothing, an
// index (1), a source (4) and an index, or a source (8) and an index. (With the control it would be less by 1 at each
// call.)
fn behind_control(mode: u8) -> usize
    ensures result_value { 1 + result ≡ security_size mode }
    ensures upper_bound { result ≤ 13 }
{
    match mode {
        0 => 4,
        1 => 5,
        2 => 9,
        _ => 13,
    }
}

// What is told of a header that ends at a place, by how many bytes are there.
fn whole(end: usize, there: usize) -> usize
    ensures { result ≡ code_of (answered ((ltb there end, Ended) ∷ []) end) }
{
    if there < end { 1001 } else { end }
}

// What reading the header at the beginning of a slice answers, as one number: its length, or 1000 plus the number of
// the first refusal. Type 4 stands in no entry: it comes behind the version and before the modes.
// Kept as one number, not a Result: it is the form that document 01 gives an answer at a C entry, and promised as such.
pub fn header_code(s: &[u8]) -> usize
    ensures { result ≡ code_of (measured s.now) }
{
    if s.len() < 3 {
        return 1001;
    }
    let a = s[0];
    let told = look(a, s[1]);
    if told == b'2' {
        return 1002;
    }
    if a % 8 == 4 {
        return 1003;
    }
    if told < b'a' {
        return 1000 + ((told - b'0') as usize);
    }
    let n = (told - b'`') as usize;
    if (a >> 3) % 2 == 0 {
        return whole(n, s.len());
    }
    if s.len() < n {
        return 1001;
    }
    whole(n + behind_control(s[n - 1] / 8 % 4), s.len())
}

// What reading the header at the beginning of a slice answers: its length, or the first refusal.
pub fn measure_header(s: &[u8]) -> Outcome
    ensures { result ≡ measured s.now }
{
    let code = header_code(s);
    if code < 1000 {
        return Ok(code);
    }
    match code {
        1001 => Err(Refusal::Ended),
        1002 => Err(Refusal::Version),
        1003 => Err(Refusal::FrameType),
        1004 => Err(Refusal::AddressMode),
        _ => Err(Refusal::NoDestination),
    }
}
