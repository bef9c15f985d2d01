// The answer to a line: its pieces are handed to a reader one after the other, then the end is said, and what the calls
// answer is told. Each store takes as much as has room, so that nothing is asked of a caller.
use header::Header;
use hexadecimal::decode_by;
use labelled::{FRAME_MOST, put_bad, put_byte, put_bytes, put_column};
use line_cutter::LINE_MOST;
use octets::{Outcome, Refusal, copy, number_of};
use pieces::{HEADER_MOST, HeaderReader, PieceAnswer, piece_outcome};
use security::counter_read;

// What the calls have answered: how many there were, and how many bytes they used; which of them gave the answer, its
// number and length, and the record written again, so many bytes of an array, since no heap is used; and how many were
// answered 9.
#[derive(Clone, Copy)]
struct Calls {
    count: usize,
    used: usize,
    answering: usize,
    outcome: Outcome,
    bytes: [u8; HEADER_MOST],
    written: usize,
    nines: usize,
}

// A line of its form, taken apart: its label, and what the calls answer.
#[derive(Clone, Copy)]
struct Columns<'a> {
    label: &'a [u8],
    calls: Calls,
}

impl Calls {
    // There was none yet.
    const NONE: Calls = Calls {
        count: 0,
        used: 0,
        answering: 0,
        outcome: Ok(0),
        bytes: [0; HEADER_MOST],
        written: 0,
        nines: 0,
    };

    // With a record written again, with the counter that was read: no bytes where that is refused.
    fn written(self, header: Header) -> Self {
        let mut bytes = [0u8; HEADER_MOST];
        let counter = counter_read(header.auxiliary_security_header);
        let written = header.write(&mut bytes, counter).unwrap_or(0);
        Calls {
            bytes,
            written,
            ..self
        }
    }

    // One call more. (No line has so many that a sum could wrap around.)
    fn with(self, answer: PieceAnswer, used: usize) -> Self {
        let calls = Calls {
            count: self.count.wrapping_add(1),
            used: self.used.wrapping_add(used),
            ..self
        };
        let answered = Calls {
            answering: calls.count,
            outcome: piece_outcome(answer),
            ..calls
        };
        match answer {
            Ok(None) => calls,
            Ok(Some((header, _))) => answered.written(header),
            Err(Refusal::Over) => Calls {
                nines: calls.nines.wrapping_add(1),
                ..calls
            },
            Err(_) => answered,
        }
    }

    // Stores the columns behind the label, and a line feed.
    fn put(self, out: &mut [u8], at: usize) -> usize {
        let next = put_column(usize::from(number_of(self.outcome)), out, at);
        let next = put_column(self.outcome.unwrap_or(0), out, next);
        let next = put_column(self.answering, out, next);
        let next = put_column(self.used, out, next);
        let next = put_column(self.nines, out, next);
        let next = put_byte(b'\t', out, next);
        let next = put_bytes(&self.bytes[..self.written.min(HEADER_MOST)], out, next);
        put_byte(b'\n', out, next)
    }
}

// Hands the pieces of a text, parted by commas, to a reader one after the other, and says the end; none where a piece
// is not whole bytes.
fn take_pieces(text: &[u8], values: &[u16; 256]) -> Option<Calls> {
    let mut piece = [0u8; FRAME_MOST];
    let mut reader = HeaderReader::new();
    let mut calls = Calls::NONE;
    for digits in text.split(|b| *b == b',') {
        let count = decode_by(digits, 0, values, &mut piece);
        if 2 * count != digits.len() {
            return None;
        }
        let taken = reader.take(&piece[..count]);
        reader = taken.reader;
        calls = calls.with(taken.answer, taken.used);
    }
    let taken = reader.end();
    Some(calls.with(taken.answer, taken.used))
}

// Takes a line apart: a label and pieces, parted by a tab.
fn take_columns<'a>(line: &'a [u8], values: &[u16; 256]) -> Option<Columns<'a>> {
    if line.len() > LINE_MOST {
        return None;
    }
    let mut columns = line.split(|b| *b == b'\t');
    let label = columns.next()?;
    let calls = take_pieces(columns.next()?, values)?;
    if columns.next().is_some() {
        return None;
    }
    Some(Columns { label, calls })
}

// Stores the answer to a line, given without its line feed, by a lent table of what bytes count for in a pair of digits
// (`hexadecimal::values`).
pub(crate) fn put_answer(line: &[u8], values: &[u16; 256], out: &mut [u8], at: usize) -> usize {
    let Some(columns) = take_columns(line, values) else {
        return put_bad(out, at);
    };
    let next = copy(columns.label, out, at);
    columns.calls.put(out, next)
}
