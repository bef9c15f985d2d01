// An address with its PAN id, which may be absent: its mode, its length and its bytes, with the PAN id in the frame
// (own) or shared. Bytes past the end of a slice count as 0 in `address_at` and are dropped by `put_address`: the
// header's reader and writer measure first.
#![tactic(auto)]

ghost use Rattle.std.specs.Prelude.{◌+◌, ◌-◌, ◌≤◌, min, ◌++◌, ◌≡◌, length};
ghost use Rattle.octets.specs.Buffer.{laid};
ghost use Rattle.octets.specs.Little.{split};
ghost use Rattle.address.specs.Address.{pan_of, mode_of_address, mode_of, shared_pan, broadcast_of};
ghost use Rattle.address.specs.Layout.{pan_length, mode_length, address_length};
ghost use Rattle.address.specs.Layout.{pan_in, address_in, pan_bytes, address_bytes};

use frame_control::AddressMode;
use identifiers::{ExtendedAddress, PanId, ShortAddress};
use octets::{behind, put, u16_at, u64_at};

#[derive(Clone, Copy, Debug, PartialEq, Eq)]
pub enum Address {
    Short(PanId, ShortAddress),
    Extended(PanId, ExtendedAddress),
}

impl Address {
    pub fn pan_id(self) -> PanId
        ensures { result ≡ pan_of self }
    {
        match self {
            Address::Short(pan_id, _) => pan_id,
            Address::Extended(pan_id, _) => pan_id,
        }
    }

    pub fn mode(self) -> AddressMode
        ensures { result ≡ mode_of_address self }
    {
        match self {
            Address::Short(_, _) => AddressMode::Short,
            Address::Extended(_, _) => AddressMode::Extended,
        }
    }

    // The address that all of a mode's devices hear, none for the mode without one.
    pub fn broadcast(mode: AddressMode) -> Option<Address>
        ensures { result ≡ broadcast_of mode }
    {
        match mode {
            AddressMode::None => None,
            AddressMode::Short => Some(Address::Short(PanId::BROADCAST, ShortAddress::BROADCAST)),
            AddressMode::Extended => Some(Address::Extended(
                PanId::BROADCAST,
                ExtendedAddress::BROADCAST,
            )),
        }
    }
}

// The mode that announces an address, none where it is absent.
pub fn mode_of(address: Option<Address>) -> AddressMode
    ensures { result ≡ mode_of address }
{
    address.map_or(AddressMode::None, |present| present.mode())
}

// The PAN id that a compressed source shares with a destination; 0 where there is none to share.
pub fn shared_pan(destination: Option<Address>) -> PanId
    ensures { result ≡ shared_pan destination }
{
    destination.map_or(PanId(0), |present| present.pan_id())
}

// How many bytes an address takes in a frame, with its own PAN id or without.
pub fn address_octets(address: Option<Address>, own: bool) -> usize
    ensures value { result ≡ address_length own address }
    ensures upper_bound { result ≤ 10 }
{
    mode_octets(mode_of(address), own)
}

fn pan_octets(own: bool) -> usize
    ensures value { result ≡ pan_length own }
    ensures upper_bound { result ≤ 2 }
{
    if own { 2 } else { 0 }
}

// How many bytes an address of a mode takes, with its own PAN id or without.
fn mode_octets(mode: AddressMode, own: bool) -> usize
    ensures value { result ≡ mode_length own mode }
    ensures upper_bound { result ≤ 10 }
{
    match mode {
        AddressMode::None => 0,
        AddressMode::Short => pan_octets(own) + 2,
        AddressMode::Extended => pan_octets(own) + 8,
    }
}

// The PAN id at a place where it is in the frame, else the shared one.
fn pan_at(s: &[u8], at: usize, own: bool, shared: PanId) -> PanId
    ensures { result ≡ pan_in own shared s.now at }
{
    if own { PanId(u16_at(s, at)) } else { shared }
}

// The address of a mode at a place, bytes past the end 0.
pub fn address_at(
    s: &[u8],
    at: usize,
    mode: AddressMode,
    own: bool,
    shared: PanId,
) -> Option<Address>
    ensures { result ≡ address_in own shared mode s.now at }
{
    match mode {
        AddressMode::None => None,
        AddressMode::Short => {
            let pan_id = pan_at(s, at, own, shared);
            let short = u16_at(s, behind(s, at, pan_octets(own)));
            Some(Address::Short(pan_id, ShortAddress(short)))
        }
        AddressMode::Extended => {
            let pan_id = pan_at(s, at, own, shared);
            let extended = u64_at(s, behind(s, at, pan_octets(own)));
            Some(Address::Extended(pan_id, ExtendedAddress(extended)))
        }
    }
}

// Stores a PAN id where it is in the frame, else nothing, as much as has room, and returns the place behind it.
fn put_pan(pan_id: PanId, own: bool, out: &mut [u8], at: usize) -> usize
    ensures value { result ≡ at + min (pan_length own) (length out.old - at) }
    ensures out_after { out.new ≡ laid out.old at (pan_bytes own pan_id) }
{
    if own {
        put(pan_id.0 as u64, 2, out, at)
    } else {
        at
    }
}

// Stores a PAN id, where it is in the frame, and then the n low bytes of v, as much as has room.
fn put_pair(pan_id: PanId, own: bool, v: u64, n: usize, out: &mut [u8], at: usize) -> usize
    ensures value { result ≡ at + min (pan_length own + n) (length out.old - at) }
    ensures out_after { out.new ≡ laid out.old at (pan_bytes own pan_id ++ split n v) }
{
    let next = put_pan(pan_id, own, out, at);
    put(v, n, out, next)
}

// Stores an address, or nothing, at a place, as much as has room, and returns the place behind it.
#[tactic(auto, using(octets::proofs::Buffer::laid_none), unfolding(crate::specs::Layout::address_bytes))]
pub fn put_address(address: Option<Address>, own: bool, out: &mut [u8], at: usize) -> usize
    ensures value { result ≡ at + min (address_length own address) (length out.old - at) }
    ensures out_after { out.new ≡ laid out.old at (address_bytes own address) }
{
    match address {
        None => at,
        Some(Address::Short(pan_id, short)) => put_pair(pan_id, own, short.0 as u64, 2, out, at),
        Some(Address::Extended(pan_id, extended)) => put_pair(pan_id, own, extended.0, 8, out, at),
    }
}
