// The key identifier: an optional source and an index, announced by the key identifier mode of the security control.
// Bytes past the end of a slice count as 0 in `key_at` and are dropped by `put_key`: readers and writers measure first.
#![tactic(auto)]

ghost use Rattle.std.specs.Prelude.{◌+◌, ◌-◌, ◌≤◌, min, ◌≡◌, length, Some};
ghost use Rattle.octets.specs.Buffer.{laid, after};
ghost use Rattle.octets.specs.Part.{write_part};
ghost use Rattle.key_identifier.specs.Key.{mode_of_key, key_length, key_in, source_length, source_bytes, key_bytes};

use octets::{Outcome, Refusal, behind, left, put, u8_at, u32_at, u64_at};
use security_control::KeyIdentifierMode;

#[derive(Clone, Copy, Debug, PartialEq, Eq)]
pub enum KeySource {
    Short(u32),
    Long(u64),
}

#[derive(Clone, Copy, Debug, PartialEq, Eq)]
pub struct KeyIdentifier {
    pub key_source: Option<KeySource>,
    pub key_index: u8,
}

// The key identifier mode that announces a key identifier, or that there is none.
pub fn mode_of_key(key: Option<KeyIdentifier>) -> KeyIdentifierMode
    ensures { result ≡ mode_of_key key }
{
    let Some(present) = key else {
        return KeyIdentifierMode::None;
    };
    match present.key_source {
        None => KeyIdentifierMode::KeyIndex,
        Some(KeySource::Short(_)) => KeyIdentifierMode::KeySource4,
        Some(KeySource::Long(_)) => KeyIdentifierMode::KeySource8,
    }
}

// How many bytes a key identifier of a mode takes.
pub fn key_octets(mode: KeyIdentifierMode) -> usize
    ensures value { result ≡ key_length mode }
    ensures upper_bound { result ≤ 9 }
{
    match mode {
        KeyIdentifierMode::None => 0,
        KeyIdentifierMode::KeyIndex => 1,
        KeyIdentifierMode::KeySource4 => 5,
        KeyIdentifierMode::KeySource8 => 9,
    }
}

// The key identifier of a mode at a place, bytes past the end 0.
pub fn key_at(s: &[u8], at: usize, mode: KeyIdentifierMode) -> Option<KeyIdentifier>
    ensures { result ≡ key_in mode s.now at }
{
    match mode {
        KeyIdentifierMode::None => None,
        KeyIdentifierMode::KeyIndex => Some(KeyIdentifier {
            key_source: None,
            key_index: u8_at(s, at),
        }),
        KeyIdentifierMode::KeySource4 => Some(KeyIdentifier {
            key_source: Some(KeySource::Short(u32_at(s, at))),
            key_index: u8_at(s, behind(s, at, 4)),
        }),
        KeyIdentifierMode::KeySource8 => Some(KeyIdentifier {
            key_source: Some(KeySource::Long(u64_at(s, at))),
            key_index: u8_at(s, behind(s, at, 8)),
        }),
    }
}

// Stores a key source, or nothing, at a place, as much as has room, and returns the place behind it.
#[tactic(auto, using(octets::proofs::Buffer::laid_none))]
fn put_source(source: Option<KeySource>, out: &mut [u8], at: usize) -> usize
    ensures value { result ≡ at + min (source_length source) (length out.old - at) }
    ensures out_after { out.new ≡ laid out.old at (source_bytes source) }
{
    match source {
        None => at,
        Some(KeySource::Short(number)) => put(number as u64, 4, out, at),
        Some(KeySource::Long(number)) => put(number, 8, out, at),
    }
}

// Stores a key identifier, or nothing, at a place, as much as has room, and returns the place behind it.
pub fn put_key(key: Option<KeyIdentifier>, out: &mut [u8], at: usize) -> usize
    ensures value { result ≡ at + min (key_length (mode_of_key key)) (length out.old - at) }
    ensures out_after { out.new ≡ laid out.old at (key_bytes key) }
{
    let Some(present) = key else {
        return at;
    };
    let next = put_source(present.key_source, out, at);
    put(present.key_index as u64, 1, out, next)
}

impl KeyIdentifier {
    // Writes it at a place: its source, if it has one, and its index; or nothing where they have no room.
    pub fn write(self, out: &mut [u8], at: usize) -> Outcome
        ensures value { result ≡ write_part out.old at (key_length (mode_of_key (Some self))) }
        ensures out_after { out.new ≡ after result out.old at (key_bytes (Some self)) }
    {
        let key = Some(self);
        let n = key_octets(mode_of_key(key));
        if left(out, at) < n {
            return Err(Refusal::Ended);
        }
        put_key(key, out, at);
        Ok(n)
    }
}
