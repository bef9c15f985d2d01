// The pending addresses of a beacon, of devices for which the coordinator holds messages: a header with two counts,
// then the short addresses and then the extended ones. No public function asks anything; reading and writing measure
// before they call those that do (`requires`).
#![tactic(auto)]

ghost use Rattle.std.specs.Prelude.{◌+◌, ◌-◌, ◌*◌, ◌≤◌, false, cond, ◌++◌, ◌≡◌, length, take};
ghost use Rattle.octets.specs.Buffer.{laid, after};
ghost use Rattle.pending.specs.Addresses.{addresses_in};
ghost use Rattle.pending.specs.Pending.{addresses_length, empty_pending, shorts_of, extendeds_of};
ghost use Rattle.pending.specs.Pending.{pending_refused, read_pending};
ghost use Rattle.pending.specs.Pending.{pending_header, pending_bytes, pending_size, pending_too_large, write_pending};

use identifiers::{ExtendedAddress, Identifier, ShortAddress};
use octets::{Outcome, Refusal, left, put, u8_at};
use seven_places::Listed;

// The n addresses of a kind side by side at a place, and broadcast ones behind them. Asks that they are there, and at
// most seven. (`array::from_fn` makes the code of a beacon's reader more than twice as long.)
fn addresses_at<T: Identifier>(s: &[u8], at: usize, n: usize) -> [T; 7]
    requires n_bound { n ≤ 7 }
    requires n_in_bounds { at + T.WIDTH * n ≤ length s.now }
    ensures { result ≡ addresses_in T.WIDTH T.of s.now at n }
{
    let mut addresses = [T::broadcast(); 7];
    for k in 0..n {
        addresses[k] = T::at(s, at + T::WIDTH * k);
    }
    addresses
}

// The two lists.
#[derive(Clone, Copy, Debug, PartialEq, Eq)]
pub struct PendingAddress {
    // How many places of each array are in use, at most 7 in a record that can be written: a larger count can be made,
    // and is refused with 8, so no type rules it out.
    pub short_address_count: usize,
    pub short_addresses: [ShortAddress; 7],
    pub extended_address_count: usize,
    pub extended_addresses: [ExtendedAddress; 7],
}

// What reading pending addresses answers; refused, with the empty ones, which a Result would not hand out.
#[derive(Clone, Copy, Debug, PartialEq, Eq)]
pub struct PendingRead {
    pub outcome: Outcome,
    pub pending_address: PendingAddress,
}

impl PendingRead {
    fn refused() -> Self
        ensures { result ≡ pending_refused }
    {
        let pending_address = PendingAddress::new();
        PendingRead {
            outcome: Err(Refusal::Ended),
            pending_address,
        }
    }
}

impl PendingAddress {
    // No addresses.
    pub fn new() -> Self
        ensures { result ≡ empty_pending }
    {
        let short_addresses = [ShortAddress::BROADCAST; 7];
        let extended_addresses = [ExtendedAddress::BROADCAST; 7];
        PendingAddress {
            short_address_count: 0,
            short_addresses,
            extended_address_count: 0,
            extended_addresses,
        }
    }

    // The short addresses, as the record has them.
    pub fn short_addresses(self) -> Listed<ShortAddress>
        ensures { result ≡ shorts_of self }
    {
        let places = self.short_addresses;
        Listed {
            count: self.short_address_count,
            places,
        }
    }

    // The extended addresses, as the record has them.
    pub fn extended_addresses(self) -> Listed<ExtendedAddress>
        ensures { result ≡ extendeds_of self }
    {
        let places = self.extended_addresses;
        Listed {
            count: self.extended_address_count,
            places,
        }
    }

    // Reads them at a place: refusal 1 where their bytes are not all there.
    pub fn read(s: &[u8], at: usize) -> PendingRead
        ensures { result ≡ read_pending s.now at }
    {
        if left(s, at) < 1 {
            return PendingRead::refused();
        }
        let header = u8_at(s, at);
        let shorts = (header % 8) as usize;
        let extendeds = (header / 16 % 8) as usize;
        let length = 1 + (2 * shorts + 8 * extendeds);
        if left(s, at) < length {
            return PendingRead::refused();
        }
        let short_addresses = addresses_at(s, at + 1, shorts);
        let extended_addresses = addresses_at(s, at + 1 + 2 * shorts, extendeds);
        PendingRead {
            outcome: Ok(length),
            pending_address: PendingAddress {
                short_address_count: shorts,
                short_addresses,
                extended_address_count: extendeds,
                extended_addresses,
            },
        }
    }

    // A count above 7: refusal 8.
    pub fn too_large(self) -> bool
        ensures { result ≡ pending_too_large self }
    {
        7 < self.short_address_count || 7 < self.extended_address_count
    }

    // How many bytes they are written in, 0 where a count is above 7.
    pub fn size(self) -> usize
        ensures value { result ≡ cond (pending_too_large self) 0 (pending_size self) }
        ensures upper_bound { result ≤ 71 }
    {
        if self.too_large() {
            return 0;
        }
        1 + (2 * self.short_address_count + 8 * self.extended_address_count)
    }

    // The byte of counts. Asks that none is too large.
    fn header(self) -> u8
        requires { pending_too_large self ≡ false }
        ensures { result ≡ pending_header self }
    {
        self.short_address_count as u8 + 16 * (self.extended_address_count as u8)
    }

    // Stores them. Asks that no count is too large.
    fn put(self, out: &mut [u8], at: usize)
        requires { pending_too_large self ≡ false }
        ensures { out.new ≡ laid out.old at (pending_bytes self) }
    {
        let header = self.header();
        let next = put(header as u64, 1, out, at);
        let next = self.short_addresses().put(out, next);
        self.extended_addresses().put(out, next);
    }

    // Writes them at a place; refused, out keeps every byte.
    #[tactic(auto, unfolding(crate::specs::Pending::write_pending))]
    pub fn write(self, out: &mut [u8], at: usize) -> Outcome
        ensures value { result ≡ write_pending self out.old at }
        ensures out_after { out.new ≡ after result out.old at (pending_bytes self) }
    {
        if self.too_large() {
            return Err(Refusal::TooLarge);
        }
        let n = self.size();
        if left(out, at) < n {
            return Err(Refusal::Ended);
        }
        self.put(out, at);
        Ok(n)
    }
}
