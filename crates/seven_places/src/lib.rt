// Arrays of seven, of which the first n places are in use: what a beacon lists.
#![tactic(auto)]

ghost use Rattle.std.specs.Prelude.{ℕ, ◌+◌, ◌-◌, ◌*◌, ◌≡◌, min, List, length, take};
ghost use Rattle.octets.specs.Words.{flat_map};
ghost use Rattle.octets.specs.Buffer.{laid};
ghost use Rattle.octets.specs.Little.{split};
ghost use Rattle.octets.proofs.Little.{split_length};

use identifiers::Identifier;
use octets::put;

// What stands side by side with others of its kind, in so many bytes each.
pub trait Entry: Copy {
    // How many bytes it takes.
    const WIDTH: usize;

    ghost WIDTH: { ℕ };

    ghost bytes: { Self → List ℕ };

    // Stores it, as much of it as has room, and returns the place behind it.
    fn put(self, out: &mut [u8], at: usize) -> usize
        ensures value { result ≡ at + min WIDTH (length out.old - at) }
        ensures out_after { out.new ≡ laid out.old at (bytes self) };

    ghost width: { (x : Self) → length (bytes x) ≡ WIDTH };
}

impl<T: Identifier> Entry for T {
    const WIDTH: usize = T::WIDTH;

    ghost WIDTH = { T.WIDTH };

    ghost bytes = { λ x. split T.WIDTH (T.value x) };

    ghost width = { λ x. split_length T.WIDTH (T.value x) };

    fn put(self, out: &mut [u8], at: usize) -> usize {
        put(self.value(), T::WIDTH, out, at)
    }
}

// A list as a record has it: the count with the array.
#[derive(Clone, Copy)]
pub struct Listed<T> {
    // How many places are in use, at most 7 in a record that can be written.
    pub count: usize,
    pub places: [T; 7],
}

impl<T: Entry> Listed<T> {
    // Stores the entries in use side by side, as much of them as has room, and returns the place behind them.
    pub fn put(self, out: &mut [u8], at: usize) -> usize
        ensures value { result ≡ at + min (T.WIDTH * length (take self.count self.places)) (length out.old - at) }
        ensures out_after { out.new ≡ laid out.old at (flat_map T.bytes (take self.count self.places)) }
    {
        Self::put_each(&self.places[..self.count.min(7)], out, at)
    }

    // Stores a slice's entries side by side. The loop stands here, never inlined: where LLVM sees that it ends within
    // seven, it writes it out seven times for each kind of entry (docs/SPEED.md, "Flash").
    #[inline(never)]
    fn put_each(entries: &[T], out: &mut [u8], at: usize) -> usize
        ensures value { result ≡ at + min (T.WIDTH * length entries.now) (length out.old - at) }
        ensures out_after { out.new ≡ laid out.old at (flat_map T.bytes entries.now) }
    {
        let mut next = at;
        for entry in entries {
            next = entry.put(out, next);
        }
        next
    }
}
