// The superframe specification: beacon order and superframe order, each a number or the case that 15 stands for, the
// final slot of the contention access period and three flags, in two bytes. No public function asks anything; reading
// and writing measure before they call those that do (`requires`).
#![tactic(auto)]

ghost use Rattle.std.specs.Prelude.{◌+◌, ◌-◌, ◌≤◌, false, ◌≡◌, length};
ghost use Rattle.octets.specs.Buffer.{laid, after};
ghost use Rattle.superframe.specs.Orders.{beacon_order_of, beacon_order_bits, beacon_order_too_large, superframe_order_of};
ghost use Rattle.superframe.specs.Orders.{superframe_order_bits, superframe_order_too_large};
ghost use Rattle.superframe.specs.Superframe.{empty_superframe, superframe_in, read_superframe, orders_byte};
ghost use Rattle.superframe.specs.Superframe.{rest_byte, superframe_bytes, superframe_too_large, write_superframe};

use octets::{Outcome, Refusal, left, put, u8_at};

// How often beacons are sent. It and `SuperframeOrder` stay two enums, as in the Rust crate: one for both would lose
// the names of the two cases, and be no shorter.
#[derive(Clone, Copy, Debug, PartialEq, Eq)]
pub enum BeaconOrder {
    BeaconOrder(u8),
    OnDemand,
}

// Any byte is taken: 15 and what is above it are OnDemand.
impl From<u8> for BeaconOrder {
    ghost from_gives = { λ value order. order ≡ beacon_order_of value };

    fn from(value: u8) -> Self {
        match value {
            0..=14 => BeaconOrder::BeaconOrder(value),
            _ => BeaconOrder::OnDemand,
        }
    }
}

// The number that stands for it, 15 for OnDemand.
impl From<BeaconOrder> for u8 {
    ghost from_gives = { λ order value. value ≡ beacon_order_bits order };

    fn from(order: BeaconOrder) -> u8 {
        match order {
            BeaconOrder::BeaconOrder(value) => value,
            BeaconOrder::OnDemand => 15,
        }
    }
}

impl BeaconOrder {
    // A numbered order above 14: refusal 8.
    fn too_large(self) -> bool
        ensures { result ≡ beacon_order_too_large self }
    {
        match self {
            BeaconOrder::BeaconOrder(value) => 14 < value,
            BeaconOrder::OnDemand => false,
        }
    }
}

// How long the active part of a superframe is.
#[derive(Clone, Copy, Debug, PartialEq, Eq)]
pub enum SuperframeOrder {
    SuperframeOrder(u8),
    Inactive,
}

// Any byte is taken: 15 and what is above it are Inactive.
impl From<u8> for SuperframeOrder {
    ghost from_gives = { λ value order. order ≡ superframe_order_of value };

    fn from(value: u8) -> Self {
        match value {
            0..=14 => SuperframeOrder::SuperframeOrder(value),
            _ => SuperframeOrder::Inactive,
        }
    }
}

// The number that stands for it, 15 for Inactive.
impl From<SuperframeOrder> for u8 {
    ghost from_gives = { λ order value. value ≡ superframe_order_bits order };

    fn from(order: SuperframeOrder) -> u8 {
        match order {
            SuperframeOrder::SuperframeOrder(value) => value,
            SuperframeOrder::Inactive => 15,
        }
    }
}

impl SuperframeOrder {
    // A numbered order above 14: refusal 8.
    fn too_large(self) -> bool
        ensures { result ≡ superframe_order_too_large self }
    {
        match self {
            SuperframeOrder::SuperframeOrder(value) => 14 < value,
            SuperframeOrder::Inactive => false,
        }
    }
}

// The two bytes' fields.
#[derive(Clone, Copy, Debug, PartialEq, Eq)]
pub struct SuperframeSpecification {
    pub beacon_order: BeaconOrder,
    pub superframe_order: SuperframeOrder,
    // The last slot of the contention access period, 0 to 15.
    pub final_cap_slot: u8,
    pub battery_life_extension: bool,
    // Sent by the PAN's coordinator.
    pub pan_coordinator: bool,
    // The coordinator takes in new devices.
    pub association_permit: bool,
}

// What reading a superframe specification answers; refused, with the empty one, which a Result would not hand out.
#[derive(Clone, Copy, Debug, PartialEq, Eq)]
pub struct SuperframeRead {
    pub outcome: Outcome,
    pub superframe_spec: SuperframeSpecification,
}

impl SuperframeSpecification {
    // OnDemand, Inactive, slot 0, no flag.
    pub fn new() -> Self
        ensures { result ≡ empty_superframe }
    {
        SuperframeSpecification {
            beacon_order: BeaconOrder::OnDemand,
            superframe_order: SuperframeOrder::Inactive,
            final_cap_slot: 0,
            battery_life_extension: false,
            pan_coordinator: false,
            association_permit: false,
        }
    }

    // The specification in two bytes. Asks that they are there.
    #[tactic(auto, unfolding(crate::specs::Superframe::superframe_in))]
    fn at(s: &[u8], at: usize) -> Self
        requires { at + 2 ≤ length s.now }
        ensures { result ≡ superframe_in s.now at }
    {
        let orders = u8_at(s, at);
        let rest = u8_at(s, at + 1);
        SuperframeSpecification {
            beacon_order: BeaconOrder::from(orders % 16),
            superframe_order: SuperframeOrder::from(orders / 16 % 16),
            final_cap_slot: rest % 16,
            battery_life_extension: rest / 16 % 2 == 1,
            pan_coordinator: rest / 64 % 2 == 1,
            association_permit: rest / 128 % 2 == 1,
        }
    }

    // Reads the two bytes at a place: refusal 1 where they are not there.
    #[tactic(auto, unfolding(crate::specs::Superframe::read_superframe))]
    pub fn read(s: &[u8], at: usize) -> SuperframeRead
        ensures { result ≡ read_superframe s.now at }
    {
        if left(s, at) < 2 {
            return SuperframeRead {
                outcome: Err(Refusal::Ended),
                superframe_spec: SuperframeSpecification::new(),
            };
        }
        SuperframeRead {
            outcome: Ok(2),
            superframe_spec: SuperframeSpecification::at(s, at),
        }
    }

    // An order above 14 in its numbered case or a slot above 15: refusal 8.
    #[tactic(auto, unfolding(crate::specs::Superframe::superframe_too_large))]
    pub fn too_large(self) -> bool
        ensures { result ≡ superframe_too_large self }
    {
        self.beacon_order.too_large()
            || self.superframe_order.too_large()
            || 15 < self.final_cap_slot
    }

    // Byte 0. Asks that no number is too large, as byte 1 and `put` do: a type for that would have the same six fields.
    fn orders(self) -> u8
        requires { superframe_too_large self ≡ false }
        ensures { result ≡ orders_byte self }
    {
        u8::from(self.beacon_order) + 16 * u8::from(self.superframe_order)
    }

    // Byte 1. Asks that no number is too large.
    fn rest(self) -> u8
        requires { superframe_too_large self ≡ false }
        ensures { result ≡ rest_byte self }
    {
        self.final_cap_slot
            + 16 * u8::from(self.battery_life_extension)
            + 64 * u8::from(self.pan_coordinator)
            + 128 * u8::from(self.association_permit)
    }

    // Stores the two bytes. Asks that no number is too large.
    fn put(self, out: &mut [u8], at: usize)
        requires { superframe_too_large self ≡ false }
        ensures { out.new ≡ laid out.old at (superframe_bytes self) }
    {
        let orders = self.orders();
        let rest = self.rest();
        let next = put(orders as u64, 1, out, at);
        put(rest as u64, 1, out, next);
    }

    // Writes the two bytes at a place; refused, out keeps every byte. The records of a beacon have five such writers:
    // one trait for them would name for each its test, its size, its bytes and its store, and be no shorter.
    #[tactic(auto, unfolding(crate::specs::Superframe::write_superframe))]
    pub fn write(self, out: &mut [u8], at: usize) -> Outcome
        ensures value { result ≡ write_superframe self out.old at }
        ensures out_after { out.new ≡ after result out.old at (superframe_bytes self) }
    {
        if self.too_large() {
            return Err(Refusal::TooLarge);
        }
        if left(out, at) < 2 {
            return Err(Refusal::Ended);
        }
        self.put(out, at);
        Ok(2)
    }
}
