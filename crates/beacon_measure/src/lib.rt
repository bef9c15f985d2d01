// Length or refusal of the beacon at a place of a slice, told by the counts in its two headers. No record is made.
#![tactic(auto)]

ghost use Rattle.std.specs.Prelude.{◌≤◌, ◌≡◌};
ghost use Rattle.time_slots.specs.TimeSlots.{time_slots_length_in};
ghost use Rattle.pending.specs.Pending.{pending_length_in};
ghost use Rattle.beacon.specs.Beacon.{read_beacon};

use octets::{Outcome, Refusal, left, u8_at};
use time_slots::slots_length;

// Bytes of the GTS information at a place, by its header; 1 where that is not there.
pub fn time_slots_length(s: &[u8], at: usize) -> usize
    ensures value { result ≡ time_slots_length_in s.now at }
    ensures upper_bound { result ≤ 23 }
{
    1 + slots_length(u8_at(s, at) % 8)
}

// Bytes of the pending addresses at a place, by their header; 1 where that is not there.
fn pending_length(s: &[u8], at: usize) -> usize
    ensures value { result ≡ pending_length_in s.now at }
    ensures upper_bound { result ≤ 71 }
{
    let header = u8_at(s, at) as usize;
    1 + (2 * (header % 8) + 8 * (header / 16 % 8))
}

// What reading the beacon at a place answers: its length, or refusal 1 where its bytes are not all there.
#[tactic(auto, unfolding(beacon::specs::Beacon::beacon_length_in), using(crate::proofs::BeaconLength::told))]
pub fn measure_beacon(s: &[u8], at: usize) -> Outcome
    ensures { result ≡ (read_beacon s.now at).outcome }
{
    let there = left(s, at);
    if there < 4 {
        return Err(Refusal::Ended);
    }
    let slots = 2 + time_slots_length(s, at + 2);
    // Without its pending header a beacon is refused at once.
    if there < slots + 1 {
        return Err(Refusal::Ended);
    }
    let n = slots + pending_length(s, at + slots);
    if there < n {
        return Err(Refusal::Ended);
    }
    Ok(n)
}
