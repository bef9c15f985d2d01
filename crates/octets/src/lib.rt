// Little-endian numbers at a place of a slice, read and stored, and what an answer says in document 01's numbers. No
// public function asks anything: bytes past the end of a slice count as 0 where they are read, and are dropped where
// they are stored. Readers and writers measure first.
#![tactic(auto)]

ghost use Rattle.std.specs.Prelude.{◌+◌, ◌-◌, ◌^◌, ◌≤◌, ◌<◌, min, cond, ◌≡◌, ltb, length};
ghost use Rattle.octets.specs.Buffer.{laid, after, fitting};
ghost use Rattle.octets.specs.Little.{split, number};
ghost use Rattle.octets.specs.Outcome.{refusal_number, number_of};
ghost use Rattle.octets.specs.Part.{write_part};

// Why bytes or a record are refused, by the rows of document 01's table and the two that document 02 adds. Each has its
// number there.
#[derive(Clone, Copy, Debug, PartialEq, Eq)]
pub enum Refusal {
    // The input or the room ends before the part at hand is complete.
    Ended,
    Version,
    FrameType,
    AddressMode,
    // Reading: compression is set, and there is no destination.
    NoDestination,
    // Writing: compression is set, and an address is missing.
    MissingAddress,
    // Writing: a security part, and no frame counter is supplied.
    MissingCounter,
    // Writing: a value does not fit its bits.
    TooLarge,
    // Writing: the length that a header keeps is not that of its parts.
    WrongLength,
    // Reading in pieces: the answer was given before.
    Over,
}

impl Refusal {
    // Its number in the documents, 1 to 9.
    pub fn number(self) -> u8
        ensures value { result ≡ refusal_number self }
        ensures lower_bound { 1 ≤ result }
        ensures upper_bound { result ≤ 9 }
    {
        match self {
            Refusal::Ended => 1,
            Refusal::Version => 2,
            Refusal::FrameType => 3,
            Refusal::AddressMode => 4,
            Refusal::NoDestination => 5,
            Refusal::MissingAddress => 6,
            Refusal::MissingCounter => 7,
            Refusal::TooLarge => 8,
            Refusal::WrongLength => 8,
            Refusal::Over => 9,
        }
    }
}

// What measuring and writing answer: how many bytes, or the refusal.
pub type Outcome = Result<usize, Refusal>;

// An answer's number in the documents, 0 where it accepts.
pub fn number_of(outcome: Outcome) -> u8
    ensures { result ≡ number_of outcome }
{
    match outcome {
        Ok(_) => 0,
        Err(refusal) => refusal.number(),
    }
}

// How many bytes of s there are from at on, none where at is past its end.
pub fn left(s: &[u8], at: usize) -> usize
    ensures { result ≡ length s.now - at }
{
    s.len().saturating_sub(at)
}

// The byte at a place, 0 past the end.
pub fn u8_at(s: &[u8], at: usize) -> u8
    ensures { result ≡ number s.now at 1 }
{
    s.get(at).copied().unwrap_or(0)
}

// The place n bytes behind another, or where s ends.
pub fn behind(s: &[u8], at: usize, n: usize) -> usize
    ensures { result ≡ cond (ltb (length s.now - at) n) (length s.now) (at + n) }
{
    // No `min` with the length: past the end and with n = 0 the place stays.
    if left(s, at) < n { s.len() } else { at + n }
}

// The number in eight bytes, those past the end 0, with a test for each. The readers of every width come here where a
// slice ends within their bytes. (Over places: there may be fewer than eight.)
fn padded_at(s: &[u8], at: usize) -> u64
    ensures { result ≡ number s.now at 8 }
{
    let mut v = 0;
    for i in (0..8).rev() {
        v = 256 * v + u8_at(s, behind(s, at, i)) as u64;
    }
    v
}

// The number in n bytes, by one loop for every width. Asks that they are there, and for no more than eight.
fn number_at(s: &[u8], at: usize, n: usize) -> u64
    requires n_bound { n ≤ 8 }
    requires n_in_bounds { n ≤ length s.now - at }
    ensures value { result ≡ number s.now at n }
    ensures upper_bound { result < 256 ^ n }
{
    let mut v = 0;
    for i in (0..n).rev() {
        v = 256 * v + s[at + i] as u64;
    }
    v
}

// The number in n bytes, those past the end 0. Asks for no more than eight. `u64_at` has the same test of its own: with
// two callers `padded_at` stays a call.
fn narrow_at(s: &[u8], at: usize, n: usize) -> u64
    requires { n ≤ 8 }
    ensures value { result ≡ number s.now at n }
    ensures upper_bound { result < 256 ^ n }
{
    if left(s, at) < n {
        padded_at(s, at)
    } else {
        number_at(s, at, n)
    }
}

// The number in two bytes, those past the end 0.
pub fn u16_at(s: &[u8], at: usize) -> u16
    ensures { result ≡ number s.now at 2 }
{
    narrow_at(s, at, 2) as u16
}

// The number in four bytes, those past the end 0.
pub fn u32_at(s: &[u8], at: usize) -> u32
    ensures { result ≡ number s.now at 4 }
{
    narrow_at(s, at, 4) as u32
}

// The number in eight bytes, those past the end 0.
pub fn u64_at(s: &[u8], at: usize) -> u64
    ensures { result ≡ number s.now at 8 }
{
    if left(s, at) < 8 {
        padded_at(s, at)
    } else {
        number_at(s, at, 8)
    }
}

// Stores the n low bytes of v from at on, the lowest first, as many as have room, and returns the place behind them.
// The loop counts from 0: over the places of out it takes 40 instructions in place of 26 for two bytes.
pub fn put(v: u64, n: usize, out: &mut [u8], at: usize) -> usize
    ensures value { result ≡ at + min n (length out.old - at) }
    ensures out_after { out.new ≡ laid out.old at (split n v) }
{
    let room = n.min(left(out, at));
    let mut rest = v;
    for i in 0..room {
        out[at + i] = (rest % 256) as u8;
        rest /= 256;
    }
    at + room
}

// Writes the n low bytes of v at a place, the lowest first, or nothing where they have no room.
pub fn write_number(v: u64, n: usize, out: &mut [u8], at: usize) -> Outcome
    ensures value { result ≡ write_part out.old at n }
    ensures out_after { out.new ≡ after result out.old at (split n v) }
{
    if left(out, at) < n {
        return Err(Refusal::Ended);
    }
    put(v, n, out, at);
    Ok(n)
}

// Stores s from a place of out on, as much of it as has room, and returns the place behind it.
pub fn copy(s: &[u8], out: &mut [u8], at: usize) -> usize
    ensures value { result ≡ at + length (fitting out.old at s.now) }
    ensures out_after { out.new ≡ laid out.old at (fitting out.old at s.now) }
{
    let n = s.len().min(left(out, at));
    // A loop: `copy_from_slice` calls `memmove`, and the archive for C calls no C library.
    for i in 0..n {
        out[at + i] = s[i];
    }
    at + n
}
