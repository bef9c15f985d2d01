// PAN ids, short addresses and extended addresses: three wrappers that are never mixed, each with its own broadcast
// form, read and written as a part of a slice at a place.
#![tactic(auto)]

ghost use Rattle.std.specs.Prelude.{ℕ, ◌-◌, ◌^◌, ◌≡◌, List, Result, refl};
ghost use Rattle.octets.specs.Buffer.{after};
ghost use Rattle.octets.specs.Little.{number, split};
ghost use Rattle.octets.specs.Part.{write_part};
ghost use Rattle.octets.specs.declared.Refusal.{Refusal};
ghost use Rattle.identifiers.specs.Identifier.{read_identifier};
ghost use Rattle.identifiers.specs.PanId.{pan, read_pan_id};
ghost use Rattle.identifiers.specs.ShortAddress.{short, read_short};
ghost use Rattle.identifiers.specs.ExtendedAddress.{extended, read_extended};

use octets::{Outcome, Refusal, left, u16_at, u64_at, write_number};

// A number in a wrapper of its own, little-endian in so many bytes.
pub trait Identifier: Copy {
    // How many bytes it takes.
    const WIDTH: usize;

    ghost WIDTH: { ℕ };

    // The identifier of a number, and the number of an identifier.
    ghost of: { ℕ → Self };

    ghost value: { Self → ℕ };

    // What reading one answers.
    ghost reading: { List ℕ → ℕ → Result Self Refusal };

    // The identifier in the bytes at a place, those past the end 0.
    fn at(s: &[u8], at: usize) -> Self
        ensures { result ≡ of (number s.now at WIDTH) };

    fn value(self) -> u64
        ensures { result ≡ value self };

    // The broadcast form: all ones.
    fn broadcast() -> Self
        ensures { result ≡ of (256 ^ WIDTH - 1) };

    fn read(s: &[u8], at: usize) -> Result<Self, Refusal>
        ensures { result ≡ reading s.now at }
    {
        if left(s, at) < Self::WIDTH {
            return Err(Refusal::Ended);
        }
        Ok(Self::at(s, at))
    }

    fn write(self, out: &mut [u8], at: usize) -> Outcome
        ensures value { result ≡ write_part out.old at WIDTH }
        ensures out_after { out.new ≡ after result out.old at (split WIDTH (value self)) }
    {
        write_number(self.value(), Self::WIDTH, out, at)
    }

    ghost value_of: { (n : ℕ) → value (of n) ≡ n };

    ghost reads: { (s : List ℕ) (at : ℕ) → reading s at ≡ read_identifier WIDTH of s at };
}

#[derive(Clone, Copy, Debug, PartialEq, Eq)]
pub struct PanId(pub u16);

impl PanId {
    pub const BROADCAST: Self = PanId(0xffff);
}

impl Identifier for PanId {
    const WIDTH: usize = 2;

    ghost WIDTH = { 2 };

    ghost of = { pan };

    ghost value = { λ x. x.0 };

    ghost reading = { read_pan_id };

    ghost value_of = { λ n. refl };

    ghost reads = { λ s at. refl };

    fn broadcast() -> Self {
        Self::BROADCAST
    }

    fn at(s: &[u8], at: usize) -> Self {
        PanId(u16_at(s, at))
    }

    fn value(self) -> u64 {
        self.0 as u64
    }
}

#[derive(Clone, Copy, Debug, PartialEq, Eq)]
pub struct ShortAddress(pub u16);

impl ShortAddress {
    pub const BROADCAST: Self = ShortAddress(0xffff);
}

impl Identifier for ShortAddress {
    const WIDTH: usize = 2;

    ghost WIDTH = { 2 };

    ghost of = { short };

    ghost value = { λ x. x.0 };

    ghost reading = { read_short };

    ghost value_of = { λ n. refl };

    ghost reads = { λ s at. refl };

    fn broadcast() -> Self {
        Self::BROADCAST
    }

    fn at(s: &[u8], at: usize) -> Self {
        ShortAddress(u16_at(s, at))
    }

    fn value(self) -> u64 {
        self.0 as u64
    }
}

#[derive(Clone, Copy, Debug, PartialEq, Eq)]
pub struct ExtendedAddress(pub u64);

impl ExtendedAddress {
    pub const BROADCAST: Self = ExtendedAddress(0xffff_ffff_ffff_ffff);
}

impl Identifier for ExtendedAddress {
    const WIDTH: usize = 8;

    ghost WIDTH = { 8 };

    ghost of = { extended };

    ghost value = { λ x. x.0 };

    ghost reading = { read_extended };

    ghost value_of = { λ n. refl };

    ghost reads = { λ s at. refl };

    fn broadcast() -> Self {
        Self::BROADCAST
    }

    fn at(s: &[u8], at: usize) -> Self {
        ExtendedAddress(u64_at(s, at))
    }

    fn value(self) -> u64 {
        self.0
    }
}
