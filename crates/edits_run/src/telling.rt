// The answer to a line: its frame's header is read, edited and written again, and what the calls answer is told. Each
// store takes as much as has room, so that nothing is asked of a caller.
use crate::edits::Edit;
use header::Header;
use hexadecimal::decode_by;
use labelled::{FRAME_MOST, put_bad, put_byte, put_bytes, put_column, put_decimal};
use line_cutter::LINE_MOST;
use octets::{Refusal, copy, number_of};
use security::counter_read;

// Room for the longest header.
const HEADER_MOST: usize = 37;

// A line of its form, taken apart: its label, what reading its frame answers, and its edits.
#[derive(Clone, Copy)]
struct Columns<'a> {
    label: &'a [u8],
    read: Result<Header, Refusal>,
    edits: &'a [u8],
}

// A record behind edits, and the place behind the numbers that they gave.
#[derive(Clone, Copy)]
struct Edited {
    header: Header,
    next: usize,
}

// Whether there are only edits in a text, parted by commas, or nothing.
fn are_edits(text: &[u8], values: &[u16; 256]) -> bool {
    text.is_empty()
        || text
            .split(|b| *b == b',')
            .all(|edit| Edit::of(edit, values).is_some())
}

// What reading the frame that digits stand for answers.
fn read_frame(digits: &[u8], values: &[u16; 256]) -> Option<Result<Header, Refusal>> {
    let mut frame = [0u8; FRAME_MOST];
    let count = decode_by(digits, 0, values, &mut frame);
    if 2 * count != digits.len() {
        return None;
    }
    Some(Header::read(&frame[..count]).map(|(header, _)| header))
}

// Takes a line apart: a label, a frame and edits, parted by tabs.
fn take_columns<'a>(line: &'a [u8], values: &[u16; 256]) -> Option<Columns<'a>> {
    if line.len() > LINE_MOST {
        return None;
    }
    let mut columns = line.split(|b| *b == b'\t');
    let label = columns.next()?;
    let read = read_frame(columns.next()?, values)?;
    let edits = columns.next()?;
    if columns.next().is_some() || !are_edits(edits, values) {
        return None;
    }
    Some(Columns { label, read, edits })
}

// Makes an edit on a record, and stores the number that it gives.
fn put_edit(edit: Edit, header: Header, out: &mut [u8], at: usize) -> Edited {
    let (header, number) = match edit.apply_to(header) {
        Ok(edited) => (edited, 0),
        Err(unshared) => (unshared.0, unshared.number()),
    };
    Edited {
        header,
        next: put_decimal(number as usize, out, at),
    }
}

// Makes the edits of a text one after the other, and stores the number that each gives, or a dash where there are none.
fn put_edits(
    header: Header,
    text: &[u8],
    values: &[u16; 256],
    out: &mut [u8],
    at: usize,
) -> Edited {
    if text.is_empty() {
        return Edited {
            header,
            next: put_byte(b'-', out, at),
        };
    }
    let mut edited = Edited { header, next: at };
    for edit in text
        .split(|b| *b == b',')
        .filter_map(|edit| Edit::of(edit, values))
    {
        // A comma stands in front of each but the first.
        if edited.next > at {
            edited.next = put_byte(b',', out, edited.next);
        }
        edited = put_edit(edit, edited.header, out, edited.next);
    }
    edited
}

// Stores the number and the bytes that writing a record gives, with the counter that was read.
fn put_written(header: Header, out: &mut [u8], at: usize) -> usize {
    let mut bytes = [0u8; HEADER_MOST];
    let counter = counter_read(header.auxiliary_security_header);
    let outcome = header.write(&mut bytes, counter);
    let next = put_column(number_of(outcome) as usize, out, at);
    let next = put_byte(b'\t', out, next);
    let n = outcome.unwrap_or(0).min(HEADER_MOST);
    put_bytes(&bytes[..n], out, next)
}

// Stores the columns of a record that was read: 0, what each edit gives, what the record is behind them, and what
// writing it gives.
fn put_record(
    header: Header,
    edits: &[u8],
    values: &[u16; 256],
    out: &mut [u8],
    at: usize,
) -> usize {
    let next = copy(b"\t0\t", out, at);
    let edited = put_edits(header, edits, values, out, next);
    let header = edited.header;
    let next = put_column(header.length, out, edited.next);
    let next = put_column(usize::from(header.pan_id_compress), out, next);
    put_written(header, out, next)
}

// Stores the answer to a line, given without its line feed, by a lent table of what bytes count for in a pair of digits
// (`hexadecimal::values`).
pub(crate) fn put_answer(line: &[u8], values: &[u16; 256], out: &mut [u8], at: usize) -> usize {
    let Some(columns) = take_columns(line, values) else {
        return put_bad(out, at);
    };
    let next = copy(columns.label, out, at);
    let next = match columns.read {
        Ok(header) => put_record(header, columns.edits, values, out, next),
        Err(refusal) => put_column(refusal.number() as usize, out, next),
    };
    put_byte(b'\n', out, next)
}
