// Bits that stand side by side in a byte: those of a byte, and a byte without them.
#![tactic(auto)]

ghost use Rattle.std.specs.Prelude.{◌*◌, ◌^◌, ◌<◌, ◌≡◌};
ghost use Rattle.octets.specs.Bits.{bits, clear};

// The count bits from bit at on.
#[derive(Clone, Copy)]
pub struct BitSpan {
    pub at: u8,
    pub count: u8,
    pub ghost at_bound: { at < 8 },
    pub ghost count_bound: { count < 8 },
}

impl BitSpan {
    // Those of a byte, where they stand.
    pub fn held(self, b: u8) -> u8
        ensures { result ≡ bits b self.at self.count * 2 ^ self.at }
    {
        (b >> self.at) % (1 << self.count) * (1 << self.at)
    }

    // A byte with them cleared.
    pub fn cleared(self, b: u8) -> u8
        ensures { result ≡ clear self.at self.count b }
    {
        b - self.held(b)
    }
}
