// Reading and writing of the line programs: standard input a chunk at a time, standard output whole. A call that a
// signal interrupts is made again; any other error is told on standard error. What is read, and what is written where a
// write fails, no contract can say.
#![tactic(auto)]

ghost use Rattle.std.specs.Prelude.{◌≡◌};
ghost use Rattle.line_io.specs.Counts.{IsPrefixLen};
ghost use Rattle.line_io.specs.Numbers.{next_of};

use std::io::{Error, ErrorKind, Read};

// What comes next: more of the input, its end, or nothing, since an error was told.
#[derive(Clone, Copy, Debug, PartialEq, Eq)]
pub enum Next {
    More,
    Ended,
    Failed,
}

// Any number is taken: 0 stands for more, 1 for the end, and every other for an error that was told.
impl From<u8> for Next {
    ghost from_gives = { λ number next. next ≡ next_of number };

    fn from(number: u8) -> Self {
        match number {
            0 => Next::More,
            1 => Next::Ended,
            _ => Next::Failed,
        }
    }
}

// How many bytes were read, and what comes next. The count is no part of `More`: so many are fed, whatever comes next.
#[derive(Clone, Copy, Debug, PartialEq, Eq)]
pub struct Got {
    pub count: usize,
    pub next: Next,
}

// Whether the call that has just failed was interrupted; any other error is told.
fn interrupted(rt: &impl Eprint, what: &str, error: Error) -> bool {
    if error.kind() == ErrorKind::Interrupted {
        return true;
    }
    let _ = eprintln!(rt; "{what}: {error}");
    false
}

// Reads once into a chunk, from its beginning. Only where there is more has anything been read. (A proved loop has to
// end, so it counts up to a number that no run reaches.)
pub fn read_some(rt: &(impl Input + Eprint), chunk: &mut [u8]) -> Got
    ensures { IsPrefixLen result.count chunk.new }
{
    for _ in 0..u64::MAX {
        match rt.reader().read(chunk) {
            Ok(0) => {
                return Got {
                    count: 0,
                    next: Next::Ended,
                };
            }
            Ok(count) => {
                return Got {
                    count,
                    next: Next::More,
                };
            }
            Err(error) => {
                if !interrupted(rt, "read", error) {
                    break;
                }
            }
        }
    }
    Got {
        count: 0,
        next: Next::Failed,
    }
}

// Writes all bytes and answers true; or tells what failed, when some may have been written, and answers false.
pub fn write_all(rt: &(impl Print + Eprint), bytes: &[u8]) -> bool {
    let mut rest = bytes;
    for _ in 0..u64::MAX {
        if rest.is_empty() {
            break;
        }
        match rt.write_some(rest) {
            Ok(0) => {
                let _ = eprintln!(rt; "write: nothing was taken");
                return false;
            }
            Ok(put) => rest = &rest[put..],
            Err(error) => {
                if !interrupted(rt, "write", error) {
                    return false;
                }
            }
        }
    }
    rest.is_empty()
}
