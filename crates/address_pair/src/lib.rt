// The two addresses of a header, destination and source, under compression or not: which PAN ids stand in a frame,
// where the addresses end, their bytes, and what compression asks of them.
#![tactic(auto)]

ghost use Rattle.std.specs.Prelude.{◌+◌, ◌-◌, ◌≤◌, min, ◌≡◌, length};
ghost use Rattle.octets.specs.Buffer.{laid};
ghost use Rattle.address_pair.specs.Pair.{pair_end, pair_bytes, pair_lacks, pair_shares};

use address::{Address, address_octets, put_address};

// Compression says that the source's PAN id is left out of the frame, since it is the destination's.
#[derive(Clone, Copy, Debug, PartialEq, Eq)]
pub struct AddressPair {
    pub compress: bool,
    pub destination: Option<Address>,
    pub source: Option<Address>,
}

impl AddressPair {
    // Where the addresses end in a frame.
    pub fn end(self) -> usize
        ensures value { result ≡ pair_end self.compress self.destination self.source }
        ensures upper_bound { result ≤ 23 }
    {
        3 + address_octets(self.destination, true) + address_octets(self.source, !self.compress)
    }

    // Stores the addresses at a place, as much as has room, and returns the place behind.
    pub fn put(self, out: &mut [u8], at: usize) -> usize
        ensures value { result ≡
            at + min (length (pair_bytes self.compress self.destination self.source)) (length out.old - at) }
        ensures out_after { out.new ≡ laid out.old at (pair_bytes self.compress self.destination self.source) }
    {
        let next = put_address(self.destination, true, out, at);
        put_address(self.source, !self.compress, out, next)
    }

    // Compression is set and an address is missing.
    pub fn lacks_address(self) -> bool
        ensures { result ≡ pair_lacks self.compress self.destination self.source }
    {
        self.compress && (self.destination.is_none() || self.source.is_none())
    }

    // Both addresses are there, and their PAN ids are equal.
    pub fn shares_pan(self) -> bool
        ensures { result ≡ pair_shares self.destination self.source }
    {
        match (self.destination, self.source) {
            (Some(to), Some(from)) => to.pan_id() == from.pan_id(),
            _ => false,
        }
    }
}
