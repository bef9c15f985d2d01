// A program that goes from line to line with a state, on slices: for each line it is told what is to be written, and
// how the state goes on. What a chunk of the input leads to, and its end, is the same for all such programs.
#![tactic(auto)]

mod kept;

ghost use Rattle.std.specs.Prelude.{ℕ, List, ◌+◌, ◌-◌, ◌*◌, ◌≤◌, ◌<◌, ◌++◌, ◌≡◌, length, take, drop, IfSome, IfNone};
ghost use Rattle.octets.specs.Stored.{Stored};
ghost use Rattle.line_cutter.specs.Answers.{Onward};
ghost use Rattle.line_cutter.specs.Line.{kept_most};
ghost use Rattle.line_cutter.specs.Lines.{last, run, Sees};
ghost use Rattle.line_cutter.specs.Telling.{told, worked_to};
ghost use Rattle.line_teller.specs.Quick.{Quick};

pub use kept::Kept;

// The place up to which a chunk is used, and how much of the output.
#[derive(Clone, Copy, Debug, PartialEq, Eq)]
pub struct Told {
    pub at: usize,
    pub used: usize,
}

// What tells lines. Its ghost members say what a line makes of its state, what is written for the line, and what is
// written where the input ends; and at most how many bytes more than a line what is written for it has, and how many
// there are at the end.
pub trait Teller {
    ghost State: { Type 0 };

    ghost state: { Self → State };

    ghost step: { State → List ℕ → State };

    ghost says: { State → List ℕ → List ℕ };

    ghost closes: { State → List ℕ };

    ghost more: { ℕ };

    ghost closes_most: { ℕ };

    // Stores what is written for a line, given without its line feed, and returns the place behind it.
    fn tell(&mut self, line: &[u8], out: &mut [u8], at: usize) -> usize
        requires { at + length line.now + more ≤ length out.old }
        ensures state_after { state self.new ≡ step (state self.old) line.now }
        ensures stored { Stored out.old at (says (state self.old) line.now) out.new result }
        ensures few { result ≤ at + length line.now + more };

    // A quick way for a line that begins at a place of a chunk and ends in it: tells it from where it lies, or nothing.
    fn tell_quick(&mut self, chunk: &[u8], at: usize, out: &mut [u8], used: usize) -> Option<Told>
        requires at_in_bounds { at < length chunk.now }
        requires room { used + more * (length chunk.now - at) ≤ length out.old }
        ensures told { IfSome result
            (Quick step says more (state self.old) (state self.new) chunk.now at out.old used out.new) }
        ensures untold { IfNone result ((state self.new ≡ state self.old) × (out.new ≡ out.old)) }
    {
        None
    }

    // Stores what is written where the input ends, and returns the place behind it.
    fn close(&self, out: &mut [u8], at: usize) -> usize
        requires { at + closes_most ≤ length out.old }
        ensures stored { Stored out.old at (closes (state self.now)) out.new result }
        ensures few { result ≤ at + closes_most };

    // No more is looked at of a line than is kept.
    ghost sees: { Sees kept_most step };

    ghost hears: { Sees kept_most says };

    // At least a byte.
    ghost some: { 0 < more };
}

// Takes a chunk from a place on up to the end of the line at hand, and tells that line where it ends.
fn tell_kept<T: Teller>(
    teller: &mut T,
    chunk: &[u8],
    at: usize,
    line: &mut Kept,
    out: &mut [u8],
    used: usize,
) -> Told
    requires at_in_bounds { at < length chunk.now }
    requires room { used + line.old.n + T.more * (length chunk.now - at) ≤ length out.old }
    ensures after { worked_to T.step T.says (T.state teller.new) (take line.new.n line.new.bytes)
        (drop result.at chunk.now) out.new result.used
        ≡ worked_to T.step T.says (T.state teller.old) (take line.old.n line.old.bytes)
        (drop at chunk.now) out.old used }
    ensures onward { Onward (length chunk.now) at line.new.n result.at }
    ensures room_after { result.used + line.new.n + T.more * (length chunk.now - result.at)
        ≤ used + line.old.n + T.more * (length chunk.now - at) }
{
    let taken = line.cut(chunk, at);
    if !taken.ended {
        return Told { at: taken.at, used };
    }
    let next = teller.tell(line.bytes(), out, used);
    line.n = 0;
    Told {
        at: taken.at,
        used: next,
    }
}

// One line, or what there is of it: the quick way where it can be taken, else by way of what is kept of it.
fn tell_next<T: Teller>(
    teller: &mut T,
    chunk: &[u8],
    at: usize,
    line: &mut Kept,
    out: &mut [u8],
    used: usize,
) -> Told
    requires at_in_bounds { at < length chunk.now }
    requires room { used + line.old.n + T.more * (length chunk.now - at) ≤ length out.old }
    ensures after { worked_to T.step T.says (T.state teller.new) (take line.new.n line.new.bytes)
        (drop result.at chunk.now) out.new result.used
        ≡ worked_to T.step T.says (T.state teller.old) (take line.old.n line.old.bytes)
        (drop at chunk.now) out.old used }
    ensures onward { Onward (length chunk.now) at line.new.n result.at }
    ensures room_after { result.used + line.new.n + T.more * (length chunk.now - result.at)
        ≤ used + line.old.n + T.more * (length chunk.now - at) }
{
    if line.n > 0 {
        return tell_kept(teller, chunk, at, line, out, used);
    }
    match teller.tell_quick(chunk, at, out, used) {
        Some(quick) => quick,
        None => tell_kept(teller, chunk, at, line, out, used),
    }
}

// A chunk of the input: tells the lines that end in it, from the beginning of out, keeps what has come of the next
// line, and returns how much of the output is used.
pub fn feed<T: Teller>(teller: &mut T, chunk: &[u8], line: &mut Kept, out: &mut [u8]) -> usize
    requires { kept_most + T.more * length chunk.now ≤ length out.old }
    ensures after { record {
      state = T.state teller.new;
      out = out.new;
      used = result;
      kept = take line.new.n line.new.bytes;
    }
        ≡ worked_to T.step T.says (T.state teller.old)
        (take line.old.n line.old.bytes) chunk.now out.old 0 }
    ensures used_in_bounds { result ≤ length out.old }
{
    let mut told = Told { at: 0, used: 0 };
    // No for: a turn uses as many bytes as there are of its line.
    while told.at < chunk.len() {
        told = tell_next(teller, chunk, told.at, line, out, told.used);
    }
    told.used
}

// The end of the input: tells a last line that was not ended, from the beginning of out, then what is written at the
// end, and returns how much of the output is used.
pub fn finish<T: Teller>(teller: &mut T, line: &Kept, out: &mut [u8]) -> usize
    requires { kept_most + T.more + T.closes_most ≤ length out.old }
    ensures state_after { T.state teller.new
        ≡ run T.step (T.state teller.old) (last (take line.now.n line.now.bytes)) }
    ensures stored { Stored out.old 0
        (told T.step T.says (T.state teller.old) (last (take line.now.n line.now.bytes))
        ++ T.closes (run T.step (T.state teller.old) (last (take line.now.n line.now.bytes))))
        out.new result }
    ensures used_in_bounds { result ≤ length out.old }
{
    if line.n == 0 {
        return teller.close(out, 0);
    }
    let used = teller.tell(line.bytes(), out, 0);
    teller.close(out, used)
}
