// The line program on slices: what a chunk of the input adds to the output, and what its end adds. The line at hand is
// the first n bytes of a buffer of KEPT_MOST.
#![tactic(auto)]

mod one_line;

ghost use Rattle.std.specs.Prelude.{ℕ, ◌≤◌, ◌≡◌, List, [], length};
ghost use Rattle.std.proofs.Common.{refl, rules};
ghost use Rattle.octets.specs.Stored.{Stored};
ghost use Rattle.hexadecimal.specs.Hex.{worths};
ghost use Rattle.labelled.proofs.Answer.{answer_front};
ghost use Rattle.line_cutter.specs.Answers.{stays, tells, output};
ghost use Rattle.line_cutter.specs.Lines.{joined};
ghost use Rattle.line_teller.specs.Written.{written};
ghost use Rattle.lines.specs.Answer.{said, answer};
ghost use Rattle.lines.specs.Chunks.{takes, feeding, ending};

use hexadecimal::{decode_by, values};
use labelled::FRAME_MOST;
use line_cutter::{KEPT_MOST, LINE_MOST, find, is_at};
use line_teller::{Kept, Teller, Told};
use octets::{copy, left};
use one_line::{put_answer, put_good};

// How many bytes of the line at hand are kept, how much of the output is used, and whether the chunk was taken. `feed`
// promises the first two of a refused call too, so this is no Option.
#[derive(Clone, Copy)]
pub struct Fed {
    pub n: usize,
    pub used: usize,
    pub taken: bool,
}

// Tells the answer to each line: the values of hex digits, and room for the bytes of a frame.
#[derive(Drop)]
pub struct Frames {
    values: [u16; 256],
    frame: [u8; FRAME_MOST],
    ghost by_worth: { values ≡ worths 256 },
    ghost whole: { length frame ≡ 512 },
}

impl Frames {
    // Whatever drives it writes the answers to the lines of its input, however that is cut into chunks.
    pub fn new() -> Frames
        ensures { (cs : List (List ℕ)) → written ⟦<Frames as Teller>⟧.step ⟦<Frames as Teller>⟧.says
            ⟦<Frames as Teller>⟧.closes (⟦<Frames as Teller>⟧.state result) cs
            ≡ output answer (joined cs) }
    {
        Frames {
            values: values(),
            frame: [0; FRAME_MOST],
        }
    }
}

// A trait for programs without a state would name the same members once more, for `Frames` and `Alters` alone.
impl Teller for Frames {
    ghost State = { Unit {0} };

    ghost state = { λ _. tt };

    ghost step = { stays };

    ghost says = { tells answer };

    ghost closes = { λ _. [] };

    ghost more = { 5 };

    ghost closes_most = { 0 };

    fn tell(&mut self, line: &[u8], out: &mut [u8], at: usize) -> usize {
        put_answer(line, &self.values, out, at)
    }

    // The quick way, for a line that is not bad.
    fn tell_quick(&mut self, chunk: &[u8], at: usize, out: &mut [u8], used: usize) -> Option<Told> {
        let tab = find(chunk, at, b'\t', b'\n');
        if !is_at(chunk, tab, b'\t') {
            return None;
        }
        let n = decode_by(chunk, tab + 1, &self.values, &mut self.frame);
        let end = tab + 1 + 2 * n;
        if !is_at(chunk, end, b'\n') {
            return None;
        }
        if end - at > LINE_MOST {
            return None;
        }
        let next = put_good(&chunk[at..tab], &self.frame[..n], out, used);
        Some(Told {
            at: end + 1,
            used: next,
        })
    }

    fn close(&self, _out: &mut [u8], at: usize) -> usize {
        at
    }

    ghost sees = { λ s l. refl };

    ghost hears = { λ s l. answer_front said l };

    ghost some = { Prim.search rules };
}

// Whether a chunk of so many bytes is taken, with n bytes in use of a line buffer and room in an output.
fn takes(size: usize, line: usize, n: usize, room: usize) -> bool
    ensures { result ≡ takes size line n room }
{
    if line != KEPT_MOST {
        return false;
    }
    if n > KEPT_MOST {
        return false;
    }
    if room < KEPT_MOST {
        return false;
    }
    size <= (room - KEPT_MOST) / 5
}

// A chunk of the input, of any length: stores the answers to the lines that end in it, from the beginning of out, and
// keeps what has come of the next line, its first KEPT_MOST bytes, with zeros behind it. It is taken with a line buffer
// of that many bytes, at most as many of them in use, and room: KEPT_MOST bytes, and five for each of the chunk. Any
// other call is refused: nothing is stored, n stays, and nothing is used.
pub fn feed(chunk: &[u8], line: &mut [u8], n: usize, out: &mut [u8]) -> Fed
    ensures value { result ≡ (feeding chunk.now line.old n out.old).fed }
    ensures line_after { line.new ≡ (feeding chunk.now line.old n out.old).line }
    ensures out_after { out.new ≡ (feeding chunk.now line.old n out.old).out }
    ensures used_in_bounds { result.used ≤ length out.old }
{
    if !takes(chunk.len(), line.len(), n, out.len()) {
        return Fed {
            n,
            used: 0,
            taken: false,
        };
    }
    let mut kept = Kept::of(&line[..n]);
    let used = line_teller::feed(&mut Frames::new(), chunk, &mut kept, out);
    let end = copy(kept.bytes(), line, 0);
    line[end..].fill(0);
    Fed {
        n: end,
        used,
        taken: true,
    }
}

// The end of the input: stores the answer to a last line that was not ended, from the beginning of out, and returns how
// much that is. Where its n bytes are not there, or there is no room for them and five, nothing is stored and 0 is
// returned; no answer is empty, so for n above 0 that tells the refusal. The clause `stored` holds the number, so this
// is no Option.
pub fn finish(line: &[u8], n: usize, out: &mut [u8]) -> usize
    ensures stored { Stored out.old 0
        (ending line.now n (length out.old)) out.new result }
    ensures upper_bound { result ≤ length out.old }
{
    if n == 0 {
        return 0;
    }
    if n > line.len() {
        return 0;
    }
    if n > left(out, 5) {
        return 0;
    }
    let values = values();
    put_answer(&line[..n], &values, out, 0)
}
