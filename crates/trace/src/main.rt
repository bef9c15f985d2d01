// The trace program, for the dispatcher: from the lines of a trace on standard input, whose frames went missing. Each
// line that is answered 10 or 11 is told as it is met, and in the end each sender with its frames, repeats and missing
// frames, and the other counts. Reading and writing are done by `line_driver`.
#![tactic(auto)]

mod counting;
mod telling;

ghost use Rattle.std.specs.Prelude.{ℕ, ◌+◌, ◌≤◌, ◌≡◌, List, length};
ghost use Rattle.std.proofs.Common.{rules};
ghost use Rattle.octets.specs.Stored.{Stored};
ghost use Rattle.hexadecimal.specs.Hex.{worths};
ghost use Rattle.line_cutter.specs.Lines.{lines, joined};
ghost use Rattle.line_teller.specs.Written.{written};
ghost use Rattle.senders.specs.Table.{table_length};
ghost use Rattle.trace_line.specs.Saying.{saying, Spoken};
ghost use Rattle.trace.specs.Plain.{Trace};
ghost use Rattle.trace.specs.Output.{summary, output};
ghost use Rattle.trace.specs.Steps.{step_on, says};
ghost use Rattle.trace.specs.State.{trace_of, step_said};
ghost use Rattle.trace.specs.Within.{Within};
ghost use Rattle.trace.specs.Next.{says_said};
ghost use Rattle.trace.specs.Onceness.{within_once};
ghost use Rattle.trace.specs.Sees.{step_sees, says_sees};

use counting::{Counts, count};
use hexadecimal::values;
use labelled::FRAME_MOST;
use line_cutter::{KEPT_MOST, LINE_MOST, is_at};
use line_driver::drive;
use line_teller::{Teller, Told};
use senders::TABLE;
use telling::{put_message, put_summary};
use trace_line::{Saying, part_at, say};

// The most that is read at a time, and room for what is written for the lines that end in it, at most sixteen bytes for
// each; so much is more than the counts take in the end.
const CHUNK: usize = 65536;

const ROOM: usize = KEPT_MOST + 16 * CHUNK;

// What a line says, given without its line feed.
fn say_line(line: &[u8], values: &[u16; 256], frame: &mut [u8]) -> Saying
    requires values_value { values.now ≡ worths 256 }
    requires frame_len { length frame.old ≡ 512 }
    ensures value { result ≡ saying line.now }
    ensures spoken { Spoken result }
{
    if line.len() > LINE_MOST {
        return Saying::Unread;
    }
    let Some(parts) = part_at(line, 0, b'\t', values, frame) else {
        return Saying::Unread;
    };
    if parts.end != line.len() {
        return Saying::Unread;
    }
    let count = parts.count;
    say(&frame[..count], parts.size)
}

// Tells what is met of a trace line by line, and its counts in the end. It holds the counts and the table of senders,
// the values of hex digits, and room for the bytes of a frame.
#[derive(Drop)]
struct Tracing {
    counts: Counts,
    table: [u64; TABLE],
    values: [u16; 256],
    frame: [u8; FRAME_MOST],
    ghost rows: { length table ≡ table_length },
    ghost within: { Within (trace_of counts table) } by { within_once (trace_of counts table) },
    ghost by_worth: { values ≡ worths 256 },
    ghost whole: { length frame ≡ 512 },
}

impl Tracing {
    // Nothing is read yet. Whatever drives it writes what is told of the lines of its input, and then the counts, however
    // that is cut into chunks.
    fn new() -> Tracing
        ensures { (cs : List (List ℕ)) → written ⟦<Tracing as Teller>⟧.step ⟦<Tracing as Teller>⟧.says
            ⟦<Tracing as Teller>⟧.closes (⟦<Tracing as Teller>⟧.state result) cs
            ≡ output (lines (joined cs)) }
    {
        Tracing {
            counts: Counts::NONE,
            table: [0; TABLE],
            values: values(),
            frame: [0; FRAME_MOST],
        }
    }

    // Counts a line by what it says, and stores what is written for it.
    fn tell_said(&mut self, said: Saying, out: &mut [u8], at: usize) -> usize
        requires spoken { Spoken said }
        requires room { at + 16 ≤ length out.old }
        ensures state_after { trace_of self.new.counts self.new.table
            ≡ step_said (trace_of self.old.counts self.old.table) said }
        ensures stored { Stored out.old at
            (says_said (trace_of self.old.counts self.old.table) said) out.new result }
        ensures few { result ≤ at + 16 }
    {
        let answered = count(self.counts, &mut self.table, said);
        self.counts = answered.counts;
        put_message(self.counts.lines, answered.answer, out, at)
    }
}

impl Teller for Tracing {
    ghost State = { Trace };

    ghost state = { λ t. trace_of t.counts t.table };

    ghost step = { step_on };

    ghost says = { says };

    ghost closes = { summary };

    ghost more = { 16 };

    ghost closes_most = { 4096 };

    fn tell(&mut self, line: &[u8], out: &mut [u8], at: usize) -> usize {
        let said = say_line(line, &self.values, &mut self.frame);
        self.tell_said(said, out, at)
    }

    // The quick way, for a line that is of its form.
    fn tell_quick(&mut self, chunk: &[u8], at: usize, out: &mut [u8], used: usize) -> Option<Told> {
        let parts = part_at(chunk, at, b'\n', &self.values, &mut self.frame)?;
        if !is_at(chunk, parts.end, b'\n') {
            return None;
        }
        if parts.end - at > LINE_MOST {
            return None;
        }
        let count = parts.count;
        let said = say(&self.frame[..count], parts.size);
        let next = self.tell_said(said, out, used);
        Some(Told {
            at: parts.end + 1,
            used: next,
        })
    }

    fn close(&self, out: &mut [u8], at: usize) -> usize {
        put_summary(self.counts, &self.table, out, at)
    }

    ghost sees = { step_sees };

    ghost hears = { says_sees };

    ghost some = { Prim.search rules };
}

fn main(rt: HostRuntime) {
    drive::<Tracing, CHUNK, ROOM>(&rt, &mut Tracing::new());
}
