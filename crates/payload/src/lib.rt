// The payload of a frame: what follows its header and, of an unsecured beacon, its content, as a part of the caller's
// own slice.
#![tactic(auto)]

ghost use Rattle.std.specs.Prelude.{◌≤◌, ◌≡◌, length};
ghost use Rattle.octets.specs.Outcome.{number_of, length_of};
ghost use Rattle.beacon.specs.Beacon.{read_beacon};
ghost use Rattle.payload.specs.Frame.{unsecured_beacon, without_beacon, with_beacon, read_frame, payload_of};
ghost use Rattle.payload.specs.Place.{begins};

use beacon::Beacon;
use frame_control::FrameType;
use header::Header;
use octets::{Outcome, Refusal, number_of};

// What a frame says. An accepting outcome's length is the place where the payload begins. A beacon is looked at only in
// an unsecured beacon frame whose header is accepted; then it has an answer, its length or the refusal. It is the empty
// one where none was accepted. They stand beside one another, and in no Result: the clause of `read` says what header
// and beacon are of a refused frame too.
#[derive(Clone, Copy, Debug, PartialEq, Eq)]
pub struct FrameRead {
    pub outcome: Outcome,
    pub header: Result<(Header, usize), Refusal>,
    pub beacon_answer: Option<Outcome>,
    pub beacon: Beacon,
}

// Whether a header is that of an unsecured beacon frame.
fn unsecured_beacon(header: Header) -> bool
    ensures { result ≡ unsecured_beacon header }
{
    !header.has_security() && header.frame_type == FrameType::Beacon
}

// The beacon that stands in front of the payload, and where the payload begins or why it does not.
fn with_beacon(frame: &[u8], header: Result<(Header, usize), Refusal>, at: usize) -> FrameRead
    requires { at ≤ length frame.now }
    ensures { result ≡ with_beacon header at (read_beacon frame.now at) }
{
    let read = Beacon::read(frame, at);
    let outcome = match read.outcome {
        Ok(n) => Ok(at + n),
        Err(refusal) => Err(refusal),
    };
    FrameRead {
        outcome,
        header,
        beacon_answer: Some(read.outcome),
        beacon: read.beacon,
    }
}

// A frame whose beacon is not looked at.
fn without_beacon(outcome: Outcome, header: Result<(Header, usize), Refusal>) -> FrameRead
    ensures { result ≡ without_beacon outcome header }
{
    FrameRead {
        outcome,
        header,
        beacon_answer: None,
        beacon: Beacon::new(),
    }
}

// Reads what stands in front of the payload.
pub fn read(frame: &[u8]) -> FrameRead
    ensures { result ≡ read_frame frame.now }
{
    let header = Header::read(frame);
    match header {
        Ok((record, n)) => {
            if unsecured_beacon(record) {
                with_beacon(frame, header, n)
            } else {
                without_beacon(Ok(n), header)
            }
        }
        Err(refusal) => without_beacon(Err(refusal), header),
    }
}

// The payload, a part of the frame with no byte copied, and the refusal number, 0 where there is none; of a refused
// frame its empty beginning.
// Kept with a number by a lent place: document 01 says that a refused frame hands back the slice's empty beginning too.
pub fn payload<'a>(frame: &'a [u8], number: &mut u8) -> &'a [u8]
    ensures result_value { result.now ≡ payload_of (read_frame frame.now).outcome frame.now }
    ensures begins { begins result frame.entry (length_of (read_frame frame.now).outcome) }
    ensures number_after { number.new ≡ number_of (read_frame frame.now).outcome }
{
    let outcome = read(frame).outcome;
    *number = number_of(outcome);
    match outcome {
        Ok(start) => &frame[start..],
        Err(_) => &frame[0..0],
    }
}
