// Beacons.
use crate::ask::{Ask, Record};
use crate::dump::{Dump, Dumped};
use crate::text::Text;
use beacon::Beacon;
use octets::{Outcome, Refusal};
use pending::PendingAddress;
use superframe::SuperframeSpecification;
use time_slots::GuaranteedTimeSlotInformation;

impl Dumped for Beacon {
    fn dump(self, text: &mut Text<'_>) {
        let superframe = self.superframe_spec;
        let info = self.guaranteed_time_slot_info;
        let pending = self.pending_address;
        superframe.dump(text);
        info.dump(text);
        pending.dump(text);
    }

    fn build(dump: &mut Dump<'_>) -> Self {
        Beacon {
            superframe_spec: SuperframeSpecification::build(dump),
            guaranteed_time_slot_info: GuaranteedTimeSlotInformation::build(dump),
            pending_address: PendingAddress::build(dump),
        }
    }
}

impl Record for Beacon {
    fn reading(s: &[u8], place: usize) -> Result<(Self, usize), Refusal> {
        let read = Beacon::read(s, place);
        read.outcome.map(|n| (read.beacon, n))
    }

    fn writing(self, ask: Ask, room: &mut [u8]) -> Outcome {
        self.write(room, ask.at)
    }
}
