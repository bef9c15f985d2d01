// Standard input line by line, for programs that answer each line by itself: `next_line` hands over one line after the
// other in a buffer that the program lends, and writes the answers that the program collects in another. They are
// written before more of the input is waited for, since the other side may wait for them, and where little room is
// left.
#![tactic(auto)]

ghost use Rattle.std.specs.Prelude.{◌≤◌, ◌≡◌, IfSome, length};
ghost use Rattle.line_cutter.specs.Line.{taken};
ghost use Rattle.line_by_line.specs.Held.{unused, line_after, past, found, Roomy, Ready, HandsOver};

use line_cutter::{KEPT_MOST, Taken, cut};
use line_io::{Next, read_some, write_all};
use octets::left;

// Bytes that a program reads at once, and that it collects.
pub const CHUNK: usize = 65536;

// Room for an answer: where less is left, the answers so far are written first.
pub const ANSWER_MOST: usize = 4096;

// Where a run stands: how many bytes are kept of the line that was found; how many bytes of the answers wait; which
// part of the chunk is still to be used; and what comes behind that.
#[derive(Clone, Copy, Debug, PartialEq, Eq)]
pub struct Turn {
    pub found: Option<usize>,
    pub used: usize,
    pub at: usize,
    pub end: usize,
    pub next: Next,
}

impl Turn {
    // Nothing is read yet.
    pub const START: Turn = Turn {
        found: None,
        used: 0,
        at: 0,
        end: 0,
        next: Next::More,
    };

    // What was taken of the chunk is used, whether or not more of the input can be had.
    fn past(self, taken: Taken) -> Self
        ensures { result ≡ past self taken }
    {
        Turn {
            at: taken.at,
            ..self
        }
    }

    // A line has ended in the chunk.
    fn with_line(self, taken: Taken) -> Self
        ensures { result ≡ found self taken }
    {
        Turn {
            found: Some(taken.n),
            ..self.past(taken)
        }
    }
}

// Writes the answers that wait. Where that fails, nothing more is to be used.
fn flush(rt: &(impl Print + Eprint), turn: Turn, out: &[u8]) -> Turn
    ensures used_value { result.used ≡ 0 }
{
    let used = turn.used.min(out.len());
    if write_all(rt, &out[..used]) {
        return Turn { used: 0, ..turn };
    }
    Turn {
        used: 0,
        at: 0,
        end: 0,
        next: Next::Failed,
        ..turn
    }
}

// For a new line: writes the answers that wait where they leave too little room for another.
fn make_room(rt: &(impl Print + Eprint), turn: Turn, out: &[u8]) -> Turn
    ensures used_in_bounds { result.used ≤ length out.now }
    ensures value { Roomy turn out.now → result ≡ turn }
{
    if left(out, turn.used) < ANSWER_MOST {
        return flush(rt, turn, out);
    }
    turn
}

// Writes the answers that wait, and reads once where the input goes on.
fn refill(rt: &(impl Input + Print + Eprint), turn: Turn, chunk: &mut [u8], out: &[u8]) -> Turn
    ensures used_value { result.used ≡ 0 }
{
    let flushed = flush(rt, turn, out);
    if flushed.next != Next::More {
        return flushed;
    }
    let got = read_some(rt, chunk);
    Turn {
        at: 0,
        end: got.count,
        next: got.next,
        ..flushed
    }
}

// Adds what the chunk still has of the line at hand to the n bytes of it in the buffer, as many as have room.
fn take_held(turn: Turn, n: usize, chunk: &[u8], line: &mut [u8]) -> Taken
    requires { n ≤ length line.old }
    ensures n_in_bounds { result.n ≤ length line.old }
    ensures value { result ≡ taken (unused turn chunk.now) turn.at line.old n }
    ensures line_after { line.new ≡ line_after turn n chunk.now line.old }
{
    let end = turn.end.min(chunk.len());
    cut(&chunk[..end], turn.at, line, n)
}

// Reads on till the line at hand, of which n bytes are kept, ends or the input does, where a last line need not be
// ended. (A proved loop has to end, and nothing says that the input does: the turns are counted, up to a number that no
// run reaches.)
fn read_on(
    rt: &(impl Input + Print + Eprint),
    turn: Turn,
    n: usize,
    chunk: &mut [u8],
    line: &mut [u8],
    out: &[u8],
) -> Turn
    requires { n ≤ length line.old }
    ensures n_in_bounds { IfSome result.found (λ k. k ≤ length line.old) }
    ensures used_value { result.used ≡ 0 }
{
    let mut n = n;
    let mut turn = refill(rt, turn, chunk, out);
    for _ in 0..u64::MAX {
        if turn.next != Next::More {
            break;
        }
        let taken = take_held(turn, n, chunk, line);
        if taken.ended {
            return turn.with_line(taken);
        }
        n = taken.n;
        turn = refill(rt, turn.past(taken), chunk, out);
    }
    let ended = turn.next == Next::Ended && n > 0;
    Turn {
        found: ended.then_some(n),
        ..turn
    }
}

// The next line: where one is found, its first bytes stand in the buffer, as many as have room. After the last line
// none is found, nor after an error, which is told on standard error. What was collected has then been written.
// Three buffers, here and in `read_on`: each is lent at any size, and is spoken of by itself in `hands_over`.
pub fn next_line(
    rt: &(impl Input + Print + Eprint),
    turn: Turn,
    chunk: &mut [u8],
    line: &mut [u8],
    out: &[u8],
) -> Turn
    ensures n_in_bounds { IfSome result.found (λ n. n ≤ length line.old) }
    ensures used_in_bounds { result.used ≤ length out.now }
    ensures hands_over { Ready turn chunk.old out.now
        → HandsOver turn chunk.old line.old result chunk.new line.new }
{
    let ready = make_room(rt, turn, out);
    let taken = take_held(ready, 0, chunk, line);
    if taken.ended {
        return ready.with_line(taken);
    }
    read_on(rt, ready.past(taken), taken.n, chunk, line, out)
}

// Answers each line of standard input by what is lent: it is handed a line without its line feed, as much of it as is
// kept, stores its answer in a buffer from a place on, and returns the place behind it. (A proved loop has to end, and
// nothing says that the input does: the lines are counted, up to a number that no run reaches.)
pub fn answer_lines<F: FnMut(&[u8], &mut [u8], usize) -> usize>(
    rt: &(impl Input + Print + Eprint),
    mut answer: F,
)
    requires { F.IsAlwaysCallable answer }
{
    let mut chunk = [0u8; CHUNK];
    let mut line = [0u8; KEPT_MOST];
    let mut out = [0u8; CHUNK];
    let mut turn = Turn::START;
    for _ in 0..u64::MAX {
        turn = next_line(rt, turn, &mut chunk, &mut line, &out);
        let Some(n) = turn.found else {
            break;
        };
        turn.used = answer(&line[..n], &mut out, turn.used);
    }
}
