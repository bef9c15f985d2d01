// The line program for the radio engineer: for each line of standard input, a label and a frame in hex, its label with
// what rewriting the frame answers and every bit that this alters. Reading and writing are done by `line_driver`.
#![tactic(auto)]

mod telling;

ghost use Rattle.std.specs.Prelude.{ℕ, ◌≡◌, List, []};
ghost use Rattle.std.proofs.Common.{refl, rules};
ghost use Rattle.hexadecimal.specs.Hex.{worths};
ghost use Rattle.labelled.proofs.Answer.{answer_front};
ghost use Rattle.line_cutter.specs.Answers.{stays, tells, output};
ghost use Rattle.line_cutter.specs.Lines.{joined};
ghost use Rattle.line_teller.specs.Written.{written};
ghost use Rattle.alters.specs.Answer.{said, answer};

use hexadecimal::values;
use line_cutter::KEPT_MOST;
use line_driver::drive;
use line_teller::Teller;
use telling::put_answer;

// The most that is read at a time, and room for the answers to the lines that end in it: each at most 250 bytes longer
// than its line.
const CHUNK: usize = 4096;

const ROOM: usize = KEPT_MOST + 250 * CHUNK;

// Tells the answer to each line, by the values of hex digits.
#[derive(Drop)]
struct Alters {
    values: [u16; 256],
    ghost by_worth: { values ≡ worths 256 },
}

impl Alters {
    // Whatever drives it writes the answers to the lines of its input, however that is cut into chunks.
    fn new() -> Alters
        ensures { (cs : List (List ℕ)) → written ⟦<Alters as Teller>⟧.step ⟦<Alters as Teller>⟧.says
            ⟦<Alters as Teller>⟧.closes (⟦<Alters as Teller>⟧.state result) cs
            ≡ output answer (joined cs) }
    {
        Alters { values: values() }
    }
}

// As for `lines::Frames`: a trait between would name the same members once more.
impl Teller for Alters {
    ghost State = { Unit {0} };

    ghost state = { λ _. tt };

    ghost step = { stays };

    ghost says = { tells answer };

    ghost closes = { λ _. [] };

    ghost more = { 250 };

    ghost closes_most = { 0 };

    fn tell(&mut self, line: &[u8], out: &mut [u8], at: usize) -> usize {
        put_answer(line, &self.values, out, at)
    }

    fn close(&self, _out: &mut [u8], at: usize) -> usize {
        at
    }

    ghost sees = { λ s l. refl };

    ghost hears = { λ s l. answer_front said l };

    ghost some = { Prim.search rules };
}

fn main(rt: HostRuntime) {
    drive::<Alters, CHUNK, ROOM>(&rt, &mut Alters::new());
}
