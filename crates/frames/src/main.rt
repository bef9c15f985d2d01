// The line program: for each line of standard input, a label and a frame in hex, its label with the header's refusal
// number and length. What is told of a line is told by `lines`, reading and writing are done by `line_driver`.
#![tactic(auto)]

use line_cutter::KEPT_MOST;
use line_driver::drive;
use lines::Frames;

// The most that is read at a time, and room for the answers to the lines that end in it.
const CHUNK: usize = 65536;

const ROOM: usize = KEPT_MOST + 5 * CHUNK;

fn main(rt: HostRuntime) {
    drive::<Frames, CHUNK, ROOM>(&rt, &mut Frames::new());
}
