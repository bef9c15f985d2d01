// Superframe specifications and their orders.
use crate::ask::{Ask, Record};
use crate::dump::{Dump, Dumped};
use crate::text::Text;
use octets::{Outcome, Refusal};
use superframe::{BeaconOrder, SuperframeOrder, SuperframeSpecification};

// The case and the value of an order: 0 and its number, or 1 and 0.
impl Dumped for BeaconOrder {
    fn dump(self, text: &mut Text<'_>) {
        match self {
            BeaconOrder::BeaconOrder(value) => text.put_hex(&[0, value]),
            BeaconOrder::OnDemand => text.put_hex(&[1, 0]),
        }
    }

    fn build(dump: &mut Dump<'_>) -> Self {
        match (dump.u8(), dump.u8()) {
            (0, value) => BeaconOrder::BeaconOrder(value),
            _ => BeaconOrder::OnDemand,
        }
    }
}

impl Dumped for SuperframeOrder {
    fn dump(self, text: &mut Text<'_>) {
        match self {
            SuperframeOrder::SuperframeOrder(value) => text.put_hex(&[0, value]),
            SuperframeOrder::Inactive => text.put_hex(&[1, 0]),
        }
    }

    fn build(dump: &mut Dump<'_>) -> Self {
        match (dump.u8(), dump.u8()) {
            (0, value) => SuperframeOrder::SuperframeOrder(value),
            _ => SuperframeOrder::Inactive,
        }
    }
}

impl Dumped for SuperframeSpecification {
    fn dump(self, text: &mut Text<'_>) {
        let beacon_order = self.beacon_order;
        let superframe_order = self.superframe_order;
        beacon_order.dump(text);
        superframe_order.dump(text);
        text.put_u8(self.final_cap_slot);
        text.put_flag(self.battery_life_extension);
        text.put_flag(self.pan_coordinator);
        text.put_flag(self.association_permit);
    }

    fn build(dump: &mut Dump<'_>) -> Self {
        SuperframeSpecification {
            beacon_order: BeaconOrder::build(dump),
            superframe_order: SuperframeOrder::build(dump),
            final_cap_slot: dump.u8(),
            battery_life_extension: dump.flag(),
            pan_coordinator: dump.flag(),
            association_permit: dump.flag(),
        }
    }
}

impl Record for SuperframeSpecification {
    fn reading(s: &[u8], place: usize) -> Result<(Self, usize), Refusal> {
        let read = SuperframeSpecification::read(s, place);
        read.outcome.map(|n| (read.superframe_spec, n))
    }

    fn writing(self, ask: Ask, room: &mut [u8]) -> Outcome {
        self.write(room, ask.at)
    }
}
