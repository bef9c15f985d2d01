// The answer that is added to a buffer. Each call stores as much as has room, so that nothing is asked of a caller.
use labelled::{last_hex_digit, put_byte, put_decimal};
use octets::{Outcome, number_of};

// A buffer, and the place behind what was added.
#[derive(Drop)]
pub(crate) struct Text<'a> {
    out: &'a mut [u8],
    at: usize,
}

impl<'a> Text<'a> {
    pub(crate) fn new(out: &'a mut [u8], at: usize) -> Self {
        Text { out, at }
    }

    pub(crate) fn end(self) -> usize {
        self.at
    }

    // Adds a letter.
    pub(crate) fn put(&mut self, letter: u8) {
        self.at = put_byte(letter, self.out, self.at);
    }

    pub(crate) fn put_tab(&mut self) {
        self.put(b'\t');
    }

    // Adds a number in decimal.
    pub(crate) fn put_decimal(&mut self, n: usize) {
        self.at = put_decimal(n, self.out, self.at);
    }

    // Adds a byte in hex.
    pub(crate) fn put_u8(&mut self, byte: u8) {
        self.put(last_hex_digit((byte / 16) as u64));
        self.put(last_hex_digit(byte as u64));
    }

    pub(crate) fn put_flag(&mut self, flag: bool) {
        self.put_u8(u8::from(flag));
    }

    // Adds bytes in hex.
    pub(crate) fn put_hex(&mut self, bytes: &[u8]) {
        for byte in bytes {
            self.put_u8(*byte);
        }
    }

    // Adds the number and the length of an outcome: 5 as 4, since the Rust has one name for both.
    pub(crate) fn put_outcome(&mut self, outcome: Outcome) {
        let number = match number_of(outcome) {
            5 => 4,
            number => number,
        };
        self.put_decimal(number as usize);
        self.put_tab();
        self.put_decimal(outcome.unwrap_or(0));
    }

    // Adds what a writing says: its outcome and, where it was accepted, the whole room.
    pub(crate) fn put_writing(&mut self, outcome: Outcome, room: &[u8]) {
        self.put_outcome(outcome);
        if outcome.is_ok() {
            self.put_tab();
            self.put_hex(room);
        }
    }
}
