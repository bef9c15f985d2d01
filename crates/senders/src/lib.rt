// Senders and what is counted of each: frames, repeats and missing ones, by the steps of its sequence numbers. The
// counts of at most sixty-four stand in a table that the caller lends, a row of seven numbers for each.
// Kept as numbers: `hear` and `row_at` answer for a slice of any length, and `row_at` tells whatever a row holds.
#![tactic(auto)]

ghost use Rattle.std.specs.Prelude.{◌≤◌, ◌<◌, ◌&&◌, ◌≡◌, leb, eqb, length};
ghost use Rattle.senders.specs.Sender.{same};
ghost use Rattle.senders.specs.Counts.{step_to, repeats_by, missing_by};
ghost use Rattle.senders.specs.Hearing.{senders_most, first_heard, heard_again, Countable, can_go_on};
ghost use Rattle.senders.specs.Table.{table_length, counted_at};
ghost use Rattle.senders.specs.Table.{row_set, row_of, row_in, table_after, rows_heard};

// The most senders that are told apart.
pub const SENDERS_MOST: usize = 64;

// The numbers of a table.
pub const TABLE: usize = 7 * SENDERS_MOST;

// A source address with its PAN id: the two numbers, and how many bytes the address has, 2 or 8.
// Kept as a number: `row_at` tells the bytes that a lent row has, which may be any.
#[derive(Clone, Copy, Debug, PartialEq, Eq)]
pub struct Sender {
    pub address: u64,
    pub pan_id: u64,
    pub octets: u64,
}

// A sender, its last sequence number, and its counts.
#[derive(Clone, Copy, Debug, PartialEq, Eq)]
pub struct Counted {
    pub who: Sender,
    pub last: u64,
    pub frames: u64,
    pub repeats: u64,
    pub missing: u64,
}

// The step from one sequence number to the next, around 256.
fn step_to(a: u8, b: u8) -> u8
    ensures { result ≡ step_to a b }
{
    b.wrapping_sub(a)
}

// How many repeats a step tells.
fn repeats_by(step: u8) -> u64
    ensures value { result ≡ repeats_by step }
    ensures upper_bound { result ≤ 1 }
{
    if step == 0 { 1 } else { 0 }
}

// How many missing frames a step tells.
fn missing_by(step: u8) -> u64
    ensures value { result ≡ missing_by step }
    ensures upper_bound { result ≤ 254 }
{
    if step < 2 { 0 } else { u64::from(step) - 1 }
}

impl Counted {
    const NO_ONE: Counted = Counted {
        who: Sender {
            octets: 0,
            pan_id: 0,
            address: 0,
        },
        last: 0,
        frames: 0,
        repeats: 0,
        missing: 0,
    };

    // A sender's first frame.
    fn first(who: Sender, number: u8) -> Self
        ensures { result ≡ first_heard who number }
    {
        Counted {
            who,
            last: u64::from(number),
            frames: 1,
            repeats: 0,
            missing: 0,
        }
    }

    // Whether one more frame can be counted.
    fn can_go_on(self) -> bool
        ensures { result ≡ can_go_on self }
    {
        self.last < 256
            && self.frames < 1000000
            && self.repeats < 1000000
            && self.missing < 256000000
    }

    // One more frame of it. It asks for counts that are far from what 64 bits hold.
    #[tactic(auto, unfolding(crate::specs::Hearing::heard_again))]
    fn again(self, number: u8) -> Self
        requires { Countable self }
        ensures { result ≡ heard_again self number }
    {
        let step = step_to(self.last as u8, number);
        Counted {
            last: u64::from(number),
            frames: self.frames + 1,
            repeats: self.repeats + repeats_by(step),
            missing: self.missing + missing_by(step),
            ..self
        }
    }
}

// What a row holds, which has to be in the table. (Its length is asked for here and below, and is in no type: the table
// is a slice of any length for `hear` and `row_at`.)
fn row_in(table: &[u64], i: usize) -> Counted
    requires i_lt_senders_most { i < senders_most }
    requires table_len { length table.now ≡ table_length }
    ensures { result ≡ counted_at table.now i }
{
    let at = 7 * i;
    let who = Sender {
        octets: table[at],
        pan_id: table[at + 1],
        address: table[at + 2],
    };
    Counted {
        who,
        last: table[at + 3],
        frames: table[at + 4],
        repeats: table[at + 5],
        missing: table[at + 6],
    }
}

// Whether a table of so many numbers has the length of a table, and so many rows in it.
fn fits(length: usize, rows: usize) -> bool
    ensures { result ≡ (eqb length table_length && leb rows senders_most) }
{
    length == TABLE && rows <= SENDERS_MOST
}

// What a row of a table holds; nobody and zeros past its end, or in a table that has not TABLE numbers: that is what
// its clause says, so this is no Option.
pub fn row_at(table: &[u64], i: usize) -> Counted
    ensures { result ≡ row_in table.now i }
{
    if i >= SENDERS_MOST {
        return Counted::NO_ONE;
    }
    if !fits(table.len(), i + 1) {
        return Counted::NO_ONE;
    }
    row_in(table, i)
}

// Writes a row, which has to be in the table.
fn put_row(table: &mut [u64], i: usize, c: Counted)
    requires i_lt_senders_most { i < senders_most }
    requires table_len { length table.old ≡ table_length }
    ensures { table.new ≡ row_set table.old i c }
{
    let at = 7 * i;
    let who = c.who;
    table[at] = who.octets;
    table[at + 1] = who.pan_id;
    table[at + 2] = who.address;
    table[at + 3] = c.last;
    table[at + 4] = c.frames;
    table[at + 5] = c.repeats;
    table[at + 6] = c.missing;
}

// Whether a row, which has to be in the table, is a sender's.
fn is_row_of(table: &[u64], i: usize, who: Sender) -> bool
    requires i_lt_senders_most { i < senders_most }
    requires table_len { length table.now ≡ table_length }
    ensures { result ≡ same who (counted_at table.now i).who }
{
    who == row_in(table, i).who
}

// The row of a sender among the first n, which have to be in the table; or n, with which `rows_heard` and `table_after`
// compare it.
fn row_of(table: &[u64], n: usize, who: Sender) -> usize
    requires n_le_senders_most { n ≤ senders_most }
    requires table_len { length table.now ≡ table_length }
    ensures { result ≡ row_of table.now n who }
{
    for i in 0..n {
        if is_row_of(table, i, who) {
            return i;
        }
    }
    n
}

// Counts a frame: on in its sender's row, or in the next row where the sender is new and there is one; how many rows of
// the table are then in use. It is not counted, and all stays as it was, where there is none, where the row's counts
// are near what 64 bits hold (none is that a million frames made), where the table has not TABLE numbers, or where more
// than SENDERS_MOST rows are in use.
pub fn hear(table: &mut [u64], rows: usize, who: Sender, number: u8) -> Option<usize>
    ensures table_after { table.new ≡ table_after table.old rows who number }
    ensures value { result ≡ rows_heard table.old rows who }
{
    if !fits(table.len(), rows) {
        return None;
    }
    let i = row_of(&table[..], rows, who);
    if i < rows {
        let c = row_in(&table[..], i);
        if !c.can_go_on() {
            return None;
        }
        put_row(table, i, c.again(number));
        return Some(rows);
    }
    if rows < SENDERS_MOST {
        put_row(table, rows, Counted::first(who, number));
        return Some(rows + 1);
    }
    None
}
