// The program that tries the edits of a header: for each line of standard input, a label, a frame in hex and edits, its
// label with what reading, editing and writing answer. It prints what the library answers, and what it prints is
// compared: so it is proved safe, within bounds and ending, and its functions promise nothing else.
#![tactic(auto)]

mod edits;
mod telling;

use hexadecimal::values;
use line_by_line::answer_lines;
use telling::put_answer;

fn main(rt: HostRuntime) {
    let values = values();
    answer_lines(&rt, |line, out, at| put_answer(line, &values, out, at));
}
