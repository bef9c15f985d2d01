// What is counted of a trace beside its senders, and one more line of it.
ghost use Rattle.std.specs.Prelude.{◌≡◌, length};
ghost use Rattle.senders.specs.Table.{table_length};
ghost use Rattle.trace_line.specs.Saying.{Spoken};
ghost use Rattle.trace.specs.Steps.{one_more};
ghost use Rattle.trace.specs.State.{trace_of, step_said, answer_said};
ghost use Rattle.trace.specs.Within.{Within};
ghost use Rattle.trace.specs.Complaint.{complaint_number, answer_number};

use senders::hear;
use trace_line::Saying;

// The lines that are told apart; a later one is only counted.
const LINES_MOST: u64 = 1000000;

// How many of the first lines there were, and rows of the table of senders in use; refused frames, frames that name no
// source, lines answered 10, and lines answered 11.
#[derive(Clone, Copy, Debug, PartialEq, Eq)]
pub struct Counts {
    pub lines: u64,
    pub rows: usize,
    pub refused: u64,
    pub sourceless: u64,
    pub unread: u64,
    pub crowded: u64,
}

// Why a line is answered: it says nothing that is counted, 10; or it is of a sixty-fifth sender, 11.
#[derive(Clone, Copy, Debug, PartialEq, Eq)]
pub enum Complaint {
    Unread,
    Crowded,
}

impl Complaint {
    // Its number.
    pub(crate) fn number(self) -> usize
        ensures { result ≡ complaint_number self }
    {
        match self {
            Complaint::Unread => 10,
            Complaint::Crowded => 11,
        }
    }
}

// The counts behind a line, and what it is answered, if anything is written.
#[derive(Clone, Copy, Debug, PartialEq, Eq)]
pub struct Answered {
    pub counts: Counts,
    pub answer: Option<Complaint>,
}

impl Counts {
    // Nothing is read yet.
    pub(crate) const NONE: Counts = Counts {
        lines: 0,
        rows: 0,
        refused: 0,
        sourceless: 0,
        unread: 0,
        crowded: 0,
    };
}

// One line more that is answered 10. The count stops at what 64 bits hold.
fn one_more(n: u64) -> u64
    ensures { result ≡ one_more n }
{
    if n < u64::MAX { n + 1 } else { n }
}

// Counts a line by what it says.
pub(crate) fn count(counts: Counts, table: &mut [u64], said: Saying) -> Answered
    requires table_len { length table.old ≡ table_length }
    requires within { Within (trace_of counts table.old) }
    requires spoken { Spoken said }
    ensures table_after { trace_of result.counts table.new ≡ step_said (trace_of counts table.old) said }
    ensures answer_value { answer_number result.answer ≡ answer_said (trace_of counts table.old) said }
    ensures within_2 { Within (trace_of result.counts table.new) }
{
    if counts.lines >= LINES_MOST {
        return Answered {
            counts: Counts {
                unread: one_more(counts.unread),
                ..counts
            },
            answer: None,
        };
    }
    let lines = counts.lines + 1;
    match said {
        Saying::Unread => {
            Answered {
                counts: Counts {
                    lines,
                    unread: one_more(counts.unread),
                    ..counts
                },
                answer: Some(Complaint::Unread),
            }
        }
        Saying::Refused => {
            Answered {
                counts: Counts {
                    lines,
                    refused: counts.refused + 1,
                    ..counts
                },
                answer: None,
            }
        }
        Saying::Sourceless => {
            Answered {
                counts: Counts {
                    lines,
                    sourceless: counts.sourceless + 1,
                    ..counts
                },
                answer: None,
            }
        }
        Saying::Heard(who, number) => {
            match hear(table, counts.rows, who, number) {
                Some(rows) => {
                    Answered {
                        counts: Counts {
                            lines,
                            rows,
                            ..counts
                        },
                        answer: None,
                    }
                }
                None => {
                    Answered {
                        counts: Counts {
                            lines,
                            crowded: counts.crowded + 1,
                            ..counts
                        },
                        answer: Some(Complaint::Crowded),
                    }
                }
            }
        }
    }
}
