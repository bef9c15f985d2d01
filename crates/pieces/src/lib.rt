// A header reader that takes a header in pieces, as a chip hands it over, and answers with the last byte needed. Its
// state is a value: each call hands back the next one, the answer, and how many bytes of the piece were used.
#![tactic(auto)]

ghost use Rattle.std.specs.Prelude.{max, ◌≤◌, true, ◌≡◌, length, take};
ghost use Rattle.pieces.specs.Needed.{control_unseen, needed};
ghost use Rattle.pieces.specs.Answer.{told, piece_outcome};
ghost use Rattle.pieces.specs.Reader.{header_most, new_reader, waits, over, cut_short, taken, ended};
ghost use Rattle.pieces.specs.Steps.{gathered, spoken};

use header::Header;
use header_bytes::{measure_header, source_end};
use octets::{Outcome, Refusal, u16_at};

// The longest header.
pub const HEADER_MOST: usize = 37;

// The bytes seen so far, their count, and how many it awaits: it looks at them once so many are there. It waits as long
// as it awaits more than it has. An array with a count beside it, since no heap is used.
#[derive(Clone, Copy, Debug, PartialEq, Eq)]
pub struct HeaderReader {
    bytes: [u8; HEADER_MOST],
    count: usize,
    awaited: usize,
}

// What is said of a piece or of the end: nothing yet, where more bytes are needed, or the header with its length; and a
// refusal is the whole reader's, or `Over` where the answer was given before.
pub type PieceAnswer = Result<Option<(Header, usize)>, Refusal>;

// What a call hands back: the reader for the next call, the answer, and how many bytes of the piece were used.
#[derive(Clone, Copy, Debug, PartialEq, Eq)]
pub struct PieceTaken {
    pub reader: HeaderReader,
    pub answer: PieceAnswer,
    pub used: usize,
}

// The length that an answer tells, 0 for more, or its refusal.
pub fn piece_outcome(answer: PieceAnswer) -> Outcome
    ensures { result ≡ piece_outcome answer }
{
    answer.map(|done| done.map_or(0, |(_, length)| length))
}

// A security control is announced by a frame control, and is not among so many bytes.
fn control_unseen(n: usize, w: usize) -> bool
    ensures { result ≡ control_unseen n w }
{
    w / 8 % 2 == 1 && n <= source_end(w)
}

// How many bytes are needed where the first count of an array are there, and no fewer than these. Asks for an array
// that holds any header: measured whole, it tells the frame control's refusals and where the header ends.
fn awaited_with(bytes: &[u8], count: usize) -> usize
    requires bytes_len { length bytes.now ≡ header_most }
    requires count_le_header_most { count ≤ header_most }
    ensures value { result ≡ max count (needed (take count bytes.now)) }
    ensures upper_bound { result ≤ header_most }
{
    if count < 3 {
        return 3;
    }
    let Ok(end) = measure_header(bytes) else {
        return count;
    };
    let w = u16_at(bytes, 0) as usize;
    if control_unseen(count, w) {
        source_end(w) + 1
    } else {
        count.max(end)
    }
}

impl HeaderReader {
    // A reader that has seen nothing.
    pub fn new() -> Self
        ensures { result ≡ new_reader }
    {
        HeaderReader {
            bytes: [0; HEADER_MOST],
            count: 0,
            awaited: 3,
        }
    }

    // It awaits more bytes than it has, and no more than it holds. Any other has given its answer, or is one that no
    // calls lead to.
    fn waits(self) -> bool
        ensures { result ≡ waits self }
    {
        self.count < self.awaited && self.awaited <= HEADER_MOST
    }

    // The answer was given before.
    fn over(self) -> PieceTaken
        ensures { result ≡ over self }
    {
        PieceTaken {
            reader: self,
            answer: Err(Refusal::Over),
            used: 0,
        }
    }

    // The input ends before the bytes needed are there, and no more are awaited.
    fn cut_short(self) -> PieceTaken
        ensures { result ≡ cut_short self }
    {
        PieceTaken {
            reader: HeaderReader {
                awaited: self.count,
                ..self
            },
            answer: Err(Refusal::Ended),
            used: 0,
        }
    }

    // Takes bytes of a piece up to the last one needed. Asks that it waits.
    fn gather(mut self, piece: &[u8]) -> Self
        requires { waits self ≡ true }
        ensures value { result ≡ gathered self piece.now }
        ensures count_le_header_most { result.count ≤ header_most }
    {
        for &byte in piece {
            if self.count >= self.awaited {
                break;
            }
            self.bytes[self.count] = byte;
            self.count += 1;
            if self.count == self.awaited {
                self.awaited = awaited_with(&self.bytes, self.count);
            }
        }
        self
    }

    // What is said of the bytes seen. Asks that they are there.
    fn say(self) -> PieceAnswer
        requires { self.count ≤ header_most }
        ensures { result ≡ spoken self }
    {
        if self.count < self.awaited {
            return Ok(None);
        }
        Header::read(&self.bytes[..self.count]).map(Some)
    }

    // Takes a piece, perhaps empty.
    #[tactic(auto, unfolding(crate::specs::Reader::taken))]
    pub fn take(self, piece: &[u8]) -> PieceTaken
        ensures { result ≡ taken self piece.now }
    {
        if !self.waits() {
            return self.over();
        }
        let next = self.gather(piece);
        let used = next.count - self.count;
        PieceTaken {
            reader: next,
            answer: next.say(),
            used,
        }
    }

    // No more is coming.
    #[tactic(auto, unfolding(crate::specs::Reader::ended))]
    pub fn end(self) -> PieceTaken
        ensures { result ≡ ended self }
    {
        if self.waits() {
            self.cut_short()
        } else {
            self.over()
        }
    }
}
