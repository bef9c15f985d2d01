// Cuts input that comes in chunks into lines. The line at hand is the first n bytes of a buffer that the caller lends,
// which keeps as much of a line as has room: one byte more than the longest line allowed is enough to tell a longer
// one.
#![tactic(auto)]

ghost use Rattle.std.specs.Prelude.{◌+◌, ◌≡◌, length, drop};
ghost use Rattle.octets.specs.Buffer.{laid, fitting};
ghost use Rattle.line_cutter.specs.Line.{before, is_at, line_of, taken};

use octets::copy;

// The longest line that is not refused as too long, without its line feed.
pub const LINE_MOST: usize = 1024;

// How much of a line is kept: one byte more tells that it is too long.
pub const KEPT_MOST: usize = LINE_MOST + 1;

// What was taken of a chunk: how many bytes of the line at hand are kept, the place up to which the chunk is used, and
// whether the line has ended. The first two are told in both cases, so this is no Option.
#[derive(Clone, Copy)]
pub struct Taken {
    pub n: usize,
    pub at: usize,
    pub ended: bool,
}

// The place of the first byte of s, from at on, that is a or b, or where s ends.
pub fn find(s: &[u8], at: usize, a: u8, b: u8) -> usize
    ensures { result ≡ at + length (before a b (drop at s.now)) }
{
    for i in at..s.len() {
        let c = s[i];
        if c == a || c == b {
            return i;
        }
    }
    s.len().max(at)
}

// Whether a byte stands at a place of s.
pub fn is_at(s: &[u8], i: usize, b: u8) -> bool
    ensures { result ≡ is_at s.now i b }
{
    i < s.len() && s[i] == b
}

// Adds the bytes of a chunk, from a place on and up to a line feed, to the n bytes of the line at hand, as many as have
// room. The line feed is used up, and is not kept. (Buffer and count are two arguments: a buffer of any size is lent.)
pub fn cut(chunk: &[u8], at: usize, line: &mut [u8], n: usize) -> Taken
    ensures value { result ≡ taken (drop at chunk.now) at line.old n }
    ensures line_after { line.new
        ≡ laid line.old n (fitting line.old n (line_of (drop at chunk.now))) }
{
    if at >= chunk.len() {
        return Taken {
            n,
            at,
            ended: false,
        };
    }
    let end = find(chunk, at, b'\n', b'\n');
    let kept = copy(&chunk[at..end], line, n);
    if end < chunk.len() {
        Taken {
            n: kept,
            at: end + 1,
            ended: true,
        }
    } else {
        Taken {
            n: kept,
            at: end,
            ended: false,
        }
    }
}
