// What single bytes stand for, and the constants (oracle/FORMAT.md, commands t, v, m, o and k).
use crate::dump::Dumped;
use crate::text::Text;
use address::Address;
use frame_control::AddressMode;
use identifiers::{ExtendedAddress, Identifier, PanId, ShortAddress};
use octets::{Outcome, Refusal};
use pending::PendingAddress;
use superframe::{BeaconOrder, SuperframeOrder};
use time_slots::{GuaranteedTimeSlotDescriptor, GuaranteedTimeSlotInformation};

// The bits again of what bits stand for, a type, a version or a mode, or its refusal.
pub(crate) fn known<T: TryFrom<u8, Error = Refusal>>(bits: u8) -> Outcome
where
    u8: From<T>,
{
    T::try_from(bits).map(|value| u8::from(value) as usize)
}

// The beacon order and the superframe order of a byte.
pub(crate) fn dump_orders(byte: u8, text: &mut Text<'_>) {
    BeaconOrder::from(byte).dump(text);
    SuperframeOrder::from(byte).dump(text);
}

// The broadcast forms and the empty records.
pub(crate) fn dump_constants(text: &mut Text<'_>) {
    PanId::broadcast().dump(text);
    ShortAddress::broadcast().dump(text);
    ShortAddress::BROADCAST.dump(text);
    ExtendedAddress::broadcast().dump(text);
    ExtendedAddress::BROADCAST.dump(text);
    Address::broadcast(AddressMode::None).dump(text);
    Address::broadcast(AddressMode::Short).dump(text);
    Address::broadcast(AddressMode::Extended).dump(text);
    GuaranteedTimeSlotDescriptor::new().dump(text);
    GuaranteedTimeSlotInformation::new().dump(text);
    PendingAddress::new().dump(text);
}
