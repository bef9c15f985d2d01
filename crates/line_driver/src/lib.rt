// The driver of the line programs: reads standard input a chunk at a time, and writes what a program tells of its
// lines, whatever program that is.
#![tactic(auto)]

ghost use Rattle.std.specs.Prelude.{◌+◌, ◌*◌, ◌^◌, ◌≤◌, ◌<◌, ◌++◌, ◌≡◌, length, take};
ghost use Rattle.octets.specs.Buffer.{laid};
ghost use Rattle.line_cutter.specs.Line.{kept_most};
ghost use Rattle.line_cutter.specs.Lines.{last, run};
ghost use Rattle.line_cutter.specs.Telling.{told, worked_to};

use line_io::Next;
use line_teller::{Kept, Teller, feed, finish};

// A turn: got bytes were read, used bytes were to be written, and what comes next.
#[derive(Clone, Copy)]
struct Turn {
    got: usize,
    used: usize,
    next: Next,
}

// Reads once, and writes what is told of the lines that end in what was read. Whatever that is, the first got bytes of
// chunk, it is what is fed, and what is fed leads to is what is to be written.
fn take_turn<T: Teller>(
    rt: &(impl Input + Print + Eprint),
    teller: &mut T,
    chunk: &mut [u8],
    line: &mut Kept,
    out: &mut [u8],
) -> Turn
    requires { kept_most + T.more * length chunk.old ≤ length out.old }
    ensures { record {
      state = T.state teller.new;
      out = out.new;
      used = result.used;
      kept = take line.new.n line.new.bytes;
    }
        ≡ worked_to T.step T.says (T.state teller.old)
        (take line.old.n line.old.bytes) (take result.got chunk.new) out.old 0 }
{
    let got = line_io::read_some(rt, chunk);
    let used = feed(teller, &chunk[..got.count], line, out);
    let good = line_io::write_all(rt, &out[..used]);
    Turn {
        got: got.count,
        used,
        next: if good { got.next } else { Next::Failed },
    }
}

// Writes what is told of a last line that was not ended, and at the end.
fn end<T: Teller>(rt: &(impl Print + Eprint), teller: &mut T, line: &Kept, out: &mut [u8])
    requires { kept_most + T.more + T.closes_most ≤ length out.old }
    ensures { out.new ≡ laid out.old 0
        (told T.step T.says (T.state teller.old) (last (take line.now.n line.now.bytes))
        ++ T.closes (run T.step (T.state teller.old) (last (take line.now.n line.now.bytes)))) }
{
    let used = finish(teller, line, out);
    line_io::write_all(rt, &out[..used]);
}

// Runs a program to the end of its input, or till reading or writing fails. CHUNK is the most that is read at a time,
// and ROOM what there is for what is told of it. (A proved loop has to end, and nothing says that the input does, so
// the loop counts its turns, up to a number that no run reaches.)
pub fn drive<T: Teller, const CHUNK: usize, const ROOM: usize>(
    rt: &(impl Input + Print + Eprint),
    teller: &mut T,
)
    requires chunk_fits { CHUNK < 2 ^ 63 }
    requires room_fits { ROOM < 2 ^ 63 }
    requires chunk_in_bounds { kept_most + T.more * CHUNK ≤ ROOM }
    requires end_in_bounds { kept_most + T.more + T.closes_most ≤ ROOM }
{
    let mut chunk = [0u8; CHUNK];
    let mut line = Kept::new();
    let mut out = [0u8; ROOM];
    let mut next = Next::More;
    for _ in 0..u64::MAX {
        if next != Next::More {
            break;
        }
        next = take_turn(rt, teller, &mut chunk, &mut line, &mut out).next;
    }
    if next == Next::Ended {
        end(rt, teller, &line, &mut out);
    }
}
