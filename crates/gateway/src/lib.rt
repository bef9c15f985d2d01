// The gateway's four entries, which `gateway_c` hands to C. Each returns one number: the length, or 1000 plus the
// refusal number. They measure, and copy what is rewritten with the listed bits cleared; no record is made.
#![tactic(auto)]

ghost use Rattle.std.specs.Prelude.{◌≤◌, ◌≡◌, length, Ok};
ghost use Rattle.octets.specs.{Buffer.laid, Buffer.after, Little.number, Outcome.code_of};
ghost use Rattle.header_bytes.specs.{Reading.measured, Rewriting.rewrite_header, Cleared.header_cleared};
ghost use Rattle.beacon.specs.Beacon.{read_beacon};
ghost use Rattle.beacon_facts.specs.Cleared.{beacon_cleared};
ghost use Rattle.gateway.specs.{Rewrite.rewrite_beacon};

mod clearing;

use beacon_measure::{measure_beacon, time_slots_length};
use clearing::{clear_header, clear_pending, clear_slots};
use header_bytes::{measure_header, sourceless};
use octets::{Outcome, Refusal, copy, u8_at, u16_at};

// The one number of an outcome.
fn code(outcome: Outcome) -> usize
    ensures { result ≡ code_of outcome }
{
    match outcome {
        Ok(length) => length,
        Err(refusal) => 1000 + refusal.number() as usize,
    }
}

// Reads the header at the beginning of a frame. The shortest frames are told at once.
pub fn knobtangle_read_header(frame: &[u8]) -> usize
    ensures { result ≡ code_of (measured frame.now) }
{
    if frame.len() < 3 {
        return code(Err(Refusal::Ended));
    }
    code(measure_header(frame))
}

// Reads the beacon at the beginning of a beacon frame's content, which begins where its header ends.
pub fn knobtangle_read_beacon(content: &[u8]) -> usize
    ensures { result ≡ code_of (read_beacon content.now 0).outcome }
{
    code(measure_beacon(content, 0))
}

// The frame control of a frame. Asks that its two bytes are there, so that they are not tested for.
fn control(frame: &[u8]) -> usize
    requires { 2 ≤ length frame.now }
    ensures { result ≡ number frame.now 0 2 }
{
    u16_at(&frame[..2], 0) as usize
}

// What rewriting a frame's header into room bytes answers: reading's refusals, then writing's.
fn rewriting(frame: &[u8], room: usize) -> Outcome
    ensures { result ≡ rewrite_header frame.now room }
{
    let length = measure_header(frame)?;
    if room < 3 {
        return Err(Refusal::Ended);
    }
    if sourceless(control(frame)) {
        return Err(Refusal::MissingAddress);
    }
    if room < length {
        return Err(Refusal::Ended);
    }
    Ok(length)
}

// Copies the n bytes of a header and clears the listed bits. Asks that rewriting accepts it with that length.
fn put_header(frame: &[u8], n: usize, out: &mut [u8])
    requires { rewrite_header frame.now (length out.old) ≡ Ok n }
    ensures { out.new ≡ laid out.old 0 (header_cleared frame.now) }
{
    copy(&frame[..n], out, 0);
    clear_header(control(frame), out);
}

// Rewrites a header: its bytes with the listed bits cleared, and what lay behind them in out; refused, out keeps every
// byte.
pub fn knobtangle_rewrite_header(frame: &[u8], out: &mut [u8]) -> usize
    ensures value { result ≡ code_of (rewrite_header frame.now (length out.old)) }
    ensures out_after { out.new ≡
        after (rewrite_header frame.now (length out.old))
        out.old 0 (header_cleared frame.now) }
{
    let outcome = rewriting(frame, out.len());
    if let Ok(length) = outcome {
        put_header(frame, length, out);
    }
    code(outcome)
}

// What rewriting a beacon into room bytes answers.
fn rewriting_beacon(content: &[u8], room: usize) -> Outcome
    ensures { result ≡ rewrite_beacon content.now room }
{
    let n = measure_beacon(content, 0)?;
    if room < n {
        return Err(Refusal::Ended);
    }
    Ok(n)
}

// Copies the n bytes of a beacon and clears the listed bits. Asks that rewriting accepts it with that length.
fn put_beacon(content: &[u8], n: usize, out: &mut [u8])
    requires { rewrite_beacon content.now (length out.old) ≡ Ok n }
    ensures { out.new ≡ laid out.old 0 (beacon_cleared content.now 0) }
{
    copy(&content[..n], out, 0);
    clear_slots(u8_at(content, 2) % 8, out);
    clear_pending(out, 2 + time_slots_length(content, 2));
}

// Rewrites a beacon: its bytes with the listed bits cleared, and what lay behind them in out; refused, out keeps every
// byte.
pub fn knobtangle_rewrite_beacon(content: &[u8], out: &mut [u8]) -> usize
    ensures value { result ≡ code_of (rewrite_beacon content.now (length out.old)) }
    ensures out_after { out.new ≡
        after (rewrite_beacon content.now (length out.old))
        out.old 0 (beacon_cleared content.now 0) }
{
    let outcome = rewriting_beacon(content, out.len());
    if let Ok(length) = outcome {
        put_beacon(content, length, out);
    }
    code(outcome)
}
