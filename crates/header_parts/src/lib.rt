// The parts of a header that tell its length: compression, both addresses, the security part. How many bytes they take
// in a frame, and what writing a header of such parts answers.
#![tactic(auto)]

ghost use Rattle.std.specs.Prelude.{◌≤◌, ◌≡◌};
ghost use Rattle.header_parts.specs.Parts.{parts_length, write_parts};

use address_pair::AddressPair;
use octets::{Outcome, Refusal};
use security::{AuxiliarySecurityHeader, lacks_counter, level_too_large, security_octets};

// How many bytes the parts take in a frame.
pub fn parts_length(pair: AddressPair, security: Option<AuxiliarySecurityHeader>) -> usize
    ensures value { result ≡ parts_length pair.compress pair.destination pair.source security }
    ensures upper_bound { result ≤ 37 }
{
    pair.end() + security_octets(security)
}

// What writing a header of these parts, with the length that it keeps, into room bytes answers: the length, or the
// first refusal of 8 (the kept length, the security level), 1 (below three bytes), 6, 1 (addresses), 7, 1 (security
// part).
#[tactic(auto, unfolding(crate::specs::Parts::write_parts))]
pub fn write_answer(
    kept: usize,
    pair: AddressPair,
    security: Option<AuxiliarySecurityHeader>,
    counter: Option<u32>,
    room: usize,
) -> Outcome
    ensures { result ≡
        write_parts kept pair.compress pair.destination pair.source security counter room }
{
    if kept != parts_length(pair, security) {
        return Err(Refusal::WrongLength);
    }
    if level_too_large(security) {
        return Err(Refusal::TooLarge);
    }
    if room < 3 {
        return Err(Refusal::Ended);
    }
    if pair.lacks_address() {
        return Err(Refusal::MissingAddress);
    }
    if room < pair.end() {
        return Err(Refusal::Ended);
    }
    if lacks_counter(security, counter) {
        return Err(Refusal::MissingCounter);
    }
    if room < kept {
        return Err(Refusal::Ended);
    }
    Ok(kept)
}
