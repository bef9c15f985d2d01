// The program that tries the reader of pieces: for each line of standard input, a label and the pieces of a header in
// hex, its label with what the reader answers. It prints what the library answers, and what it prints is compared: so
// it is proved safe, within bounds and ending, and its functions promise nothing else.
#![tactic(auto)]

mod telling;

use hexadecimal::values;
use line_by_line::answer_lines;
use telling::put_answer;

fn main(rt: HostRuntime) {
    let values = values();
    answer_lines(&rt, |line, out, at| put_answer(line, &values, out, at));
}
