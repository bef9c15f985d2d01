// What is written of a trace: a line that is answered 10 or 11, and the counts in the end. A store takes as much as has
// room and returns the place behind it; by hand, and not by Display, as in `labelled`. The table is a slice, as it is
// for `senders`.
ghost use Rattle.std.specs.Prelude.{◌≤◌, ◌*◌, [], ◌∷◌, ◌++◌, ◌≡◌, length};
ghost use Rattle.octets.specs.Words.{flat_map};
ghost use Rattle.line_cutter.specs.Line.{tab_byte};
ghost use Rattle.labelled.specs.Decimal.{column};
ghost use Rattle.labelled.specs.Hexed.{hex_by};
ghost use Rattle.labelled.specs.Put.{Put};
ghost use Rattle.senders.specs.Hearing.{senders_most};
ghost use Rattle.senders.specs.Table.{table_length, counted_in};
ghost use Rattle.trace.specs.Output.{message, sender_line, other_lines, summary};
ghost use Rattle.trace.specs.Complaint.{answer_number};
ghost use Rattle.trace.specs.State.{trace_of};
ghost use Rattle.trace.specs.Within.{AllSmall};

use crate::counting::{Complaint, Counts};
use labelled::{last_hex_digit, put_byte, put_column};
use octets::copy;
use senders::{Counted, Sender, row_at};

// Stores a word and a column behind it.
fn put_count(word: &[u8], n: u64, out: &mut [u8], at: usize) -> usize
    ensures { Put out.old at (word.now ++ column n) out.new result }
{
    let next = copy(word, out, at);
    put_column(n as usize, out, next)
}

// Stores the answer to a line, its number counted from 1; nothing where it is not answered.
pub(crate) fn put_message(line: u64, answer: Option<Complaint>, out: &mut [u8], at: usize) -> usize
    ensures { Put out.old at (message line (answer_number answer)) out.new result }
{
    let Some(complaint) = answer else {
        return at;
    };
    let next = put_count(b"line", line, out, at);
    let next = put_column(complaint.number(), out, next);
    put_byte(b'\n', out, next)
}

// Stores so many low digits of a number in hex, the highest first. A number of 64 bits has sixteen.
fn put_hex(v: u64, digits: usize, out: &mut [u8], at: usize) -> usize
    requires { digits ≤ 16 }
    ensures { Put out.old at (hex_by digits v) out.new result }
{
    let mut next = at;
    for i in (0..digits).rev() {
        let digit = last_hex_digit(v >> (4 * i));
        next = put_byte(digit, out, next);
    }
    next
}

// Stores a PAN id, a tab and an address, two digits for each byte of it.
fn put_who(who: Sender, out: &mut [u8], at: usize) -> usize
    requires { who.octets ≤ 8 }
    ensures { Put out.old at
        (hex_by 4 who.pan_id ++ (tab_byte ∷ hex_by (2 * who.octets) who.address)) out.new result }
{
    let next = put_hex(who.pan_id, 4, out, at);
    let next = put_byte(b'\t', out, next);
    put_hex(who.address, 2 * who.octets as usize, out, next)
}

// Stores the columns of a sender's counts.
fn put_counts(c: Counted, out: &mut [u8], at: usize) -> usize
    ensures { Put out.old at
        (column c.frames ++ (column c.repeats ++ column c.missing)) out.new result }
{
    let next = put_column(c.frames as usize, out, at);
    let next = put_column(c.repeats as usize, out, next);
    put_column(c.missing as usize, out, next)
}

// Stores the line of a sender.
fn put_sender(c: Counted, out: &mut [u8], at: usize) -> usize
    requires { c.who.octets ≤ 8 }
    ensures { Put out.old at (sender_line c) out.new result }
{
    let who = c.who;
    let next = copy(b"sender\t", out, at);
    let next = put_who(who, out, next);
    let next = put_counts(c, out, next);
    put_byte(b'\n', out, next)
}

// Stores the lines of the senders. The rows in use have to be in the table, and addresses of at most eight bytes in
// them.
fn put_senders(counts: Counts, table: &[u64], out: &mut [u8], at: usize) -> usize
    requires rows_le_senders_most { counts.rows ≤ senders_most }
    requires table_len { length table.now ≡ table_length }
    requires all_small { AllSmall counts.lines (counted_in table.now counts.rows) }
    ensures { Put out.old at
        (flat_map sender_line (counted_in table.now counts.rows)) out.new result }
{
    let mut next = at;
    for i in 0..counts.rows {
        next = put_sender(row_at(table, i), out, next);
    }
    next
}

// Stores the other counts, which no table tells.
fn put_others(counts: Counts, out: &mut [u8], at: usize) -> usize
    ensures { Put out.old at (other_lines (trace_of counts [])) out.new result }
{
    let next = put_count(b"refused", counts.refused, out, at);
    let next = put_count(b"\nsourceless", counts.sourceless, out, next);
    let next = put_count(b"\nunread", counts.unread, out, next);
    let next = put_column(counts.crowded as usize, out, next);
    put_byte(b'\n', out, next)
}

// Stores each sender with its counts, and the other counts. The rows in use have to be in the table, and addresses of
// at most eight bytes in them.
pub(crate) fn put_summary(counts: Counts, table: &[u64], out: &mut [u8], at: usize) -> usize
    requires rows_le_senders_most { counts.rows ≤ senders_most }
    requires table_len { length table.now ≡ table_length }
    requires all_small { AllSmall counts.lines (counted_in table.now counts.rows) }
    ensures { Put out.old at (summary (trace_of counts table.now)) out.new result }
{
    let next = put_senders(counts, table, out, at);
    put_others(counts, out, next)
}
