// A beacon's content: superframe specification, GTS information and pending addresses, side by side. No public function
// asks anything; writing measures before it calls those that do (`requires`).
#![tactic(auto)]

ghost use Rattle.std.specs.Prelude.{◌+◌, ◌-◌, ◌≤◌, false, ◌≡◌, length};
ghost use Rattle.octets.specs.Buffer.{laid, after};
ghost use Rattle.beacon.specs.Beacon.{empty_beacon, beacon_refused, read_beacon, beacon_bytes, beacon_size};
ghost use Rattle.beacon.specs.Beacon.{beacon_too_large, write_beacon};

use octets::{Outcome, Refusal, left};
use pending::PendingAddress;
use superframe::SuperframeSpecification;
use time_slots::GuaranteedTimeSlotInformation;

// The three parts.
#[derive(Clone, Copy, Debug, PartialEq, Eq)]
pub struct Beacon {
    pub superframe_spec: SuperframeSpecification,
    pub guaranteed_time_slot_info: GuaranteedTimeSlotInformation,
    pub pending_address: PendingAddress,
}

// What reading a beacon answers; refused, with the empty one, which a Result would not hand out.
#[derive(Clone, Copy, Debug, PartialEq, Eq)]
pub struct BeaconRead {
    pub outcome: Outcome,
    pub beacon: Beacon,
}

impl BeaconRead {
    fn refused() -> Self
        ensures { result ≡ beacon_refused }
    {
        BeaconRead {
            outcome: Err(Refusal::Ended),
            beacon: Beacon::new(),
        }
    }
}

impl Beacon {
    // Each part empty.
    pub fn new() -> Self
        ensures { result ≡ empty_beacon }
    {
        Beacon {
            superframe_spec: SuperframeSpecification::new(),
            guaranteed_time_slot_info: GuaranteedTimeSlotInformation::new(),
            pending_address: PendingAddress::new(),
        }
    }

    // Reads it at a place, part by part: refusal 1 where its bytes are not all there.
    pub fn read(s: &[u8], at: usize) -> BeaconRead
        ensures { result ≡ read_beacon s.now at }
    {
        let superframe = SuperframeSpecification::read(s, at);
        if superframe.outcome.is_err() {
            return BeaconRead::refused();
        }
        let slots = GuaranteedTimeSlotInformation::read(s, at + 2);
        let Ok(slots_length) = slots.outcome else {
            return BeaconRead::refused();
        };
        let pending = PendingAddress::read(s, at + 2 + slots_length);
        let Ok(pending_length) = pending.outcome else {
            return BeaconRead::refused();
        };
        BeaconRead {
            outcome: Ok(2 + slots_length + pending_length),
            beacon: Beacon {
                superframe_spec: superframe.superframe_spec,
                guaranteed_time_slot_info: slots.guaranteed_time_slot_info,
                pending_address: pending.pending_address,
            },
        }
    }

    // A part with a number too large: refusal 8.
    #[tactic(auto, unfolding(crate::specs::Beacon::beacon_too_large))]
    fn too_large(self) -> bool
        ensures { result ≡ beacon_too_large self }
    {
        self.superframe_spec.too_large()
            || self.guaranteed_time_slot_info.too_large()
            || self.pending_address.too_large()
    }

    // How many bytes it is written in. Asks that no number is too large.
    fn size(self) -> usize
        requires { beacon_too_large self ≡ false }
        ensures value { result ≡ beacon_size self }
        ensures upper_bound { result ≤ 96 }
    {
        2 + self.guaranteed_time_slot_info.size() + self.pending_address.size()
    }

    // Stores it, part by part. Asks that no number is too large, and for that room.
    fn put(self, out: &mut [u8], at: usize)
        requires self_value { beacon_too_large self ≡ false }
        requires self_in_bounds { beacon_size self ≤ length out.old - at }
        ensures { out.new ≡ laid out.old at (beacon_bytes self) }
    {
        let slots = self.guaranteed_time_slot_info;
        // No part refuses: none is too large, and there is room.
        let _ = self.superframe_spec.write(out, at);
        let _ = slots.write(out, at + 2);
        let _ = self.pending_address.write(out, at + 2 + slots.size());
    }

    // Writes it at a place; refused, out keeps every byte.
    pub fn write(self, out: &mut [u8], at: usize) -> Outcome
        ensures value { result ≡ write_beacon self out.old at }
        ensures out_after { out.new ≡ after result out.old at (beacon_bytes self) }
    {
        if self.too_large() {
            return Err(Refusal::TooLarge);
        }
        let n = self.size();
        if left(out, at) < n {
            return Err(Refusal::Ended);
        }
        self.put(out, at);
        Ok(n)
    }
}
