// The program that is compared with the Rust: for each command line of standard input its answer (oracle/FORMAT.md), in
// the same order. It prints what the library answers, and what it prints is compared: so it is proved safe, within
// bounds and ending, and its functions promise nothing else.
#![tactic(auto)]

mod addresses;
mod ask;
mod beacons;
mod commands;
mod dump;
mod headers;
mod pending_addresses;
mod security_parts;
mod slots;
mod superframes;
mod text;
mod values;

use commands::put_answer;
use line_by_line::answer_lines;

fn main(rt: HostRuntime) {
    answer_lines(&rt, put_answer);
}
