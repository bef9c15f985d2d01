// The line at hand: as many of its bytes as are kept, at the beginning of a buffer of its own, which is an array with a
// count, since no heap is used. The whole buffer is in the clauses, and no Model of what is kept: `cut` says of all of
// it what it then holds.
ghost use Rattle.std.specs.Prelude.{◌≤◌, ◌≡◌, length, take, drop};
ghost use Rattle.octets.specs.Buffer.{laid, fitting};
ghost use Rattle.line_cutter.specs.Line.{kept_most, line_of, taken};

use line_cutter::{KEPT_MOST, Taken, cut};
use octets::copy;

#[derive(Drop)]
pub struct Kept {
    pub bytes: [u8; KEPT_MOST],
    pub n: usize,
    ghost few: { n ≤ kept_most },
    ghost long: { length bytes ≡ kept_most },
}

impl Kept {
    // Nothing of a line is kept.
    pub fn new() -> Kept
        ensures { result.n ≡ 0 }
    {
        Kept {
            bytes: [0; KEPT_MOST],
            n: 0,
        }
    }

    // A line of which some bytes have come, no more than are kept.
    pub fn of(bytes: &[u8]) -> Kept
        requires { length bytes.now ≤ kept_most }
        ensures { take result.n result.bytes ≡ bytes.now }
    {
        let mut kept = Kept::new();
        kept.n = copy(bytes, &mut kept.bytes, 0);
        kept
    }

    // What is kept of it.
    pub fn bytes(&self) -> &[u8]
        ensures { result.now ≡ take self.now.n self.now.bytes }
    {
        &self.bytes[..self.n]
    }

    // Adds the bytes of a chunk, from a place on and up to a line feed, as many as are kept of a line.
    pub fn cut(&mut self, chunk: &[u8], at: usize) -> Taken
        ensures value { result ≡ taken (drop at chunk.now) at self.old.bytes self.old.n }
        ensures bytes_after { self.new.bytes
            ≡ laid self.old.bytes self.old.n (fitting self.old.bytes self.old.n (line_of (drop at chunk.now))) }
        ensures n_after { self.new.n ≡ result.n }
    {
        let taken = cut(chunk, at, &mut self.bytes, self.n);
        self.n = taken.n;
        taken
    }
}
