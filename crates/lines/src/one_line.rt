// The answer to one line, stored into a buffer: building blocks of this crate, which ask for room (`requires`). By
// hand, and not by Display: the clauses say what the buffer then holds.
ghost use Rattle.std.specs.Prelude.{◌+◌, ◌≤◌, ◌<◌, [], ◌∷◌, ◌++◌, ◌≡◌, length};
ghost use Rattle.hexadecimal.specs.Hex.{worths};
ghost use Rattle.line_cutter.specs.Line.{line_feed};
ghost use Rattle.labelled.specs.Decimal.{decimal};
ghost use Rattle.header.specs.Read.{read_header, read_outcome};
ghost use Rattle.lines.specs.Answer.{columns, said, answer};
ghost use Rattle.octets.specs.Outcome.{number_of, length_of};
ghost use Rattle.octets.specs.Stored.{Stored};

use header::Header;
use labelled::{FRAME_MOST, part, put_bad};
use octets::{Outcome, copy, number_of};

// Stores a number below 100 in decimal and a line feed.
fn put_length(k: usize, out: &mut [u8], at: usize) -> usize
    requires k_bound { k < 100 }
    requires at_in_bounds { at + 3 ≤ length out.old }
    ensures stored { Stored out.old at (decimal k ++ (line_feed ∷ [])) out.new result }
    ensures upper_bound { result ≤ at + 3 }
{
    if k < 10 {
        out[at] = b'0' + k as u8;
        out[at + 1] = b'\n';
        return at + 2;
    }
    out[at] = b'0' + (k / 10) as u8;
    out[at + 1] = b'0' + (k % 10) as u8;
    out[at + 2] = b'\n';
    at + 3
}

// Stores what stands behind a label: an answer's number and length.
fn put_columns(o: Outcome, out: &mut [u8], at: usize) -> usize
    requires number_bound { number_of o ≤ 5 }
    requires length_bound { length_of o ≤ 37 }
    requires at_in_bounds { at + 6 ≤ length out.old }
    ensures stored { Stored out.old at (columns o) out.new result }
    ensures upper_bound { result ≤ at + 6 }
{
    out[at] = b'\t';
    out[at + 1] = b'0' + number_of(o);
    out[at + 2] = b'\t';
    put_length(o.unwrap_or(0), out, at + 3)
}

// What the header of a frame says: its length, or its refusal.
fn header_outcome(frame: &[u8]) -> Outcome
    ensures { result ≡ read_outcome (read_header frame.now) }
{
    Header::read(frame).map(|(_, length)| length)
}

// Stores the answer to a line that is not bad, from its label and its bytes. Asks for room: the label and six bytes.
pub(crate) fn put_good(label: &[u8], frame: &[u8], out: &mut [u8], at: usize) -> usize
    requires { at + length label.now + 6 ≤ length out.old }
    ensures stored { Stored out.old at
        (label.now ++ said frame.now) out.new result }
    ensures upper_bound { result ≤ at + length label.now + 6 }
{
    let next = copy(label, out, at);
    put_columns(header_outcome(frame), out, next)
}

// Stores the answer to a line, given without its line feed. Asks for the values of hex digits, and for room: the line
// and five bytes.
pub(crate) fn put_answer(line: &[u8], values: &[u16; 256], out: &mut [u8], at: usize) -> usize
    requires line_in_bounds { at + length line.now + 5 ≤ length out.old }
    requires values_value { values.now ≡ worths 256 }
    ensures stored { Stored out.old at (answer line.now) out.new result }
    ensures upper_bound { result ≤ at + length line.now + 5 }
{
    let mut frame = [0u8; FRAME_MOST];
    let Ok(parted) = part(line, values, &mut frame) else {
        return put_bad(out, at);
    };
    put_good(&line[..parted.tab], &frame[..parted.count], out, at)
}
