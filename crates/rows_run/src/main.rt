// Rows 14 and 15 of document 01, run: the row, the refusal number, the length and, for a beacon, the two cases that 15
// stands for.
#![tactic(auto)]

use beacon::Beacon;
use octets::{Outcome, number_of};
use pending::PendingAddress;
use superframe::{BeaconOrder, SuperframeOrder, SuperframeSpecification};

// A row's last digit, then number and length, two digits.
// Kept by hand: that each is one digit is proved here, and the edit `tens_not_cut` is refused by it.
fn say(rt: &impl Print, row: u8, outcome: Outcome) {
    let length = outcome.unwrap_or(0);
    let tens = (length / 10 % 10) as u8;
    let ones = (length % 10) as u8;
    let text = [
        b'1',
        b'0' + row % 10,
        b' ',
        b'0' + number_of(outcome) % 10,
        b' ',
        b'0' + tens,
        b'0' + ones,
    ];
    let _ = rt.write_all(&text);
}

// The case of each order.
fn say_orders(rt: &impl Print, superframe: SuperframeSpecification) {
    let beacon_order = match superframe.beacon_order {
        BeaconOrder::BeaconOrder(_) => "numbered",
        BeaconOrder::OnDemand => "OnDemand",
    };
    let superframe_order = match superframe.superframe_order {
        SuperframeOrder::SuperframeOrder(_) => "numbered",
        SuperframeOrder::Inactive => "Inactive",
    };
    let _ = println!(rt; " {beacon_order} {superframe_order}");
}

fn say_beacon(rt: &impl Print, s: &[u8]) {
    let answer = Beacon::read(s, 0);
    say(rt, 4, answer.outcome);
    say_orders(rt, answer.beacon.superframe_spec);
}

fn say_pending(rt: &impl Print, s: &[u8]) {
    say(rt, 5, PendingAddress::read(s, 0).outcome);
    let _ = println!(rt);
}

fn main(rt: HostRuntime) {
    say_beacon(&rt, b"\xff\x0f\x00\x00");
    say_beacon(&rt, b"\xff\x0f\x00");
    say_pending(&rt, b"\x11\x01\x02\x03\x04\x05\x06\x07\x08\x09");
    say_pending(&rt, b"\x11\x01\x02\x03\x04\x05\x06\x07\x08\x09\x0a");
}
