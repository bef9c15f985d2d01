// The auxiliary security header: security control, frame counter, key identifier; read and written as a part of a slice
// at a place. Bytes past the end of a slice count as 0 in `at` and are dropped by `put`: readers and writers measure
// first.
#![tactic(auto)]

ghost use Rattle.std.specs.Prelude.{◌+◌, ◌-◌, ◌≤◌, min, ◌≡◌, length};
ghost use Rattle.octets.specs.Buffer.{laid, after};
ghost use Rattle.security.specs.Security.{security_of, security_in, security_length, security_control_written};
ghost use Rattle.security.specs.Security.{security_bytes};
ghost use Rattle.security.specs.Optional.{optional_in, optional_too_large, optional_length, optional_bytes};
ghost use Rattle.security.specs.Optional.{optional_lacks, counter_of, counter_read};
ghost use Rattle.security.specs.Answer.{read_security, write_security};

use key_identifier::{KeyIdentifier, key_at, key_octets, mode_of_key, put_key};
use octets::{Outcome, Refusal, behind, left, put, u8_at, u32_at};
use security_control::SecurityControl;

#[derive(Clone, Copy, Debug, PartialEq, Eq)]
pub struct AuxiliarySecurityHeader {
    pub control: SecurityControl,
    pub frame_counter: u32,
    pub key_identifier: Option<KeyIdentifier>,
}

// The security part at a place, where there is one (on), bytes past the end 0.
pub fn security_at(s: &[u8], at: usize, on: bool) -> Option<AuxiliarySecurityHeader>
    ensures { result ≡ optional_in on s.now at }
{
    if on {
        Some(AuxiliarySecurityHeader::at(s, at))
    } else {
        None
    }
}

// A security part with a level above 7.
pub fn level_too_large(security: Option<AuxiliarySecurityHeader>) -> bool
    ensures { result ≡ optional_too_large security }
{
    security.is_some_and(|present| 7 < present.control.security_level)
}

// How many bytes a security part takes in a frame, none where it is absent.
pub fn security_octets(security: Option<AuxiliarySecurityHeader>) -> usize
    ensures value { result ≡ optional_length security }
    ensures upper_bound { result ≤ 14 }
{
    match security {
        None => 0,
        Some(present) => present.get_octet_size(),
    }
}

// Stores a security part, or nothing, with a counter at a place, as much as has room, and returns the place behind it.
#[tactic(auto, using(octets::proofs::Buffer::laid_none))]
pub fn put_security(
    security: Option<AuxiliarySecurityHeader>,
    out: &mut [u8],
    at: usize,
    counter: u32,
) -> usize
    ensures value { result ≡ at + min (optional_length security) (length out.old - at) }
    ensures out_after { out.new ≡ laid out.old at (optional_bytes security counter) }
{
    match security {
        None => at,
        Some(present) => present.put(out, at, counter),
    }
}

// A security part, and no counter is handed over for it.
pub fn lacks_counter(security: Option<AuxiliarySecurityHeader>, counter: Option<u32>) -> bool
    ensures { result ≡ optional_lacks security counter }
{
    security.is_some() && counter.is_none()
}

// The counter of a security part, as a writer is handed one.
pub fn counter_read(security: Option<AuxiliarySecurityHeader>) -> Option<u32>
    ensures { result ≡ counter_read security }
{
    security.map(|present| present.get_frame_counter())
}

impl AuxiliarySecurityHeader {
    // With a counter of 0.
    pub fn new(control: SecurityControl, key_identifier: Option<KeyIdentifier>) -> Self
        ensures { result ≡ security_of control 0 key_identifier }
    {
        AuxiliarySecurityHeader {
            control,
            frame_counter: 0,
            key_identifier,
        }
    }

    pub fn get_frame_counter(self) -> u32
        ensures { result ≡ self.frame_counter }
    {
        self.frame_counter
    }

    // How many bytes it takes: 5, 6, 10 or 14, by the key identifier.
    pub fn get_octet_size(self) -> usize
        ensures value { result ≡ security_length self }
        ensures upper_bound { result ≤ 14 }
    {
        5 + key_octets(mode_of_key(self.key_identifier))
    }

    // What the bytes at a place say, those past the end 0.
    #[tactic(auto, using(octets::proofs::Little::number_behind, key_identifier::proofs::Keys::key_behind), unfolding(crate::specs::Security::security_in))]
    fn at(s: &[u8], at: usize) -> Self
        ensures { result ≡ security_in s.now at }
    {
        let control = SecurityControl::from(u8_at(s, at));
        AuxiliarySecurityHeader {
            control,
            frame_counter: u32_at(s, behind(s, at, 1)),
            key_identifier: key_at(s, behind(s, at, 5), control.key_id_mode),
        }
    }

    // Reads it at a place: its first byte tells how many there are to be.
    #[tactic(auto, unfolding(crate::specs::Answer::read_security))]
    pub fn read(s: &[u8], at: usize) -> Result<(Self, usize), Refusal>
        ensures { result ≡ read_security s.now at }
    {
        let control = SecurityControl::from(u8_at(s, at));
        let n = 5 + key_octets(control.key_id_mode);
        if left(s, at) < n {
            return Err(Refusal::Ended);
        }
        Ok((Self::at(s, at), n))
    }

    // The control byte as it is written: the level, and the mode of the key identifier.
    fn written_control(self) -> u8
        ensures value { result ≡ security_control_written self }
        ensures upper_bound { result ≤ 31 }
    {
        u8::from(SecurityControl {
            key_id_mode: mode_of_key(self.key_identifier),
            ..self.control
        })
    }

    // Stores it with a counter at a place, as much as has room, and returns the place behind it.
    pub fn put(self, out: &mut [u8], at: usize, counter: u32) -> usize
        ensures value { result ≡ at + min (security_length self) (length out.old - at) }
        ensures out_after { out.new ≡ laid out.old at (security_bytes self counter) }
    {
        let behind_control = put(self.written_control() as u64, 1, out, at);
        let behind_counter = put(counter as u64, 4, out, behind_control);
        put_key(self.key_identifier, out, behind_counter)
    }

    // Writes it at a place. The key mode comes from the key identifier, the counter from the caller: the record's own
    // counter is not written.
    #[tactic(auto, unfolding(crate::specs::Answer::write_security))]
    pub fn write(self, out: &mut [u8], at: usize, counter: Option<u32>) -> Outcome
        ensures value { result ≡ write_security self counter out.old at }
        ensures out_after { out.new ≡ after result out.old at (security_bytes self (counter_of counter)) }
    {
        if 7 < self.control.security_level {
            return Err(Refusal::TooLarge);
        }
        let number = counter.ok_or(Refusal::MissingCounter)?;
        let n = self.get_octet_size();
        if left(out, at) < n {
            return Err(Refusal::Ended);
        }
        self.put(out, at, number);
        Ok(n)
    }
}
