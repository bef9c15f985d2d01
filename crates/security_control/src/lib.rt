// The security control byte: security level and key identifier mode.
#![tactic(auto)]

ghost use Rattle.std.specs.Prelude.{◌≤◌, ◌≡◌};
ghost use Rattle.octets.specs.Buffer.{after};
ghost use Rattle.octets.specs.Little.{split};
ghost use Rattle.octets.specs.Value.{write_value};
ghost use Rattle.security_control.specs.Control.{key_mode_of, key_mode_bits, security_control_of, security_control_in};
ghost use Rattle.security_control.specs.Control.{security_control_bits, level_too_large, read_security_control};

use octets::{Outcome, Refusal, left, put, u8_at};

#[derive(Clone, Copy, Debug, PartialEq, Eq)]
pub enum KeyIdentifierMode {
    None,
    KeyIndex,
    KeySource4,
    KeySource8,
}

// The mode of two bits; a larger number, which two bits cannot hold, counts as 3.
impl From<u8> for KeyIdentifierMode {
    ghost from_gives = { λ bits mode. mode ≡ key_mode_of bits };

    #[tactic(auto, unfolding(crate::specs::Control::key_mode_of))]
    fn from(bits: u8) -> KeyIdentifierMode {
        match bits {
            0 => KeyIdentifierMode::None,
            1 => KeyIdentifierMode::KeyIndex,
            2 => KeyIdentifierMode::KeySource4,
            _ => KeyIdentifierMode::KeySource8,
        }
    }
}

// The two bits of the mode, as a number.
impl From<KeyIdentifierMode> for u8 {
    ghost from_gives = { λ mode bits. (bits ≡ key_mode_bits mode) × (bits ≤ 3) };

    fn from(mode: KeyIdentifierMode) -> u8 {
        match mode {
            KeyIdentifierMode::None => 0,
            KeyIdentifierMode::KeyIndex => 1,
            KeyIdentifierMode::KeySource4 => 2,
            KeyIdentifierMode::KeySource8 => 3,
        }
    }
}

// The level is a number, of which 0 to 7 can be written.
#[derive(Clone, Copy, Debug, PartialEq, Eq)]
pub struct SecurityControl {
    pub security_level: u8,
    pub key_id_mode: KeyIdentifierMode,
}

// What a byte says; its bits 5 to 7 are not looked at.
impl From<u8> for SecurityControl {
    ghost from_gives = { λ byte control. control ≡ security_control_in byte };

    fn from(byte: u8) -> SecurityControl {
        SecurityControl {
            security_level: byte % 8,
            key_id_mode: KeyIdentifierMode::from(byte / 8 % 4),
        }
    }
}

// The byte, of a level above 7 only its low three bits.
impl From<SecurityControl> for u8 {
    ghost from_gives = { λ control byte. (byte ≡ security_control_bits control) × (byte ≤ 31) };

    fn from(control: SecurityControl) -> u8 {
        control.security_level % 8 + 8 * u8::from(control.key_id_mode)
    }
}

impl SecurityControl {
    // A level without a key identifier.
    #[tactic(auto, unfolding(crate::specs::Control::key_mode_of))]
    pub fn new(security_level: u8) -> Self
        ensures { result ≡ security_control_of security_level (key_mode_of 0) }
    {
        SecurityControl {
            security_level,
            key_id_mode: KeyIdentifierMode::None,
        }
    }

    // Reads the byte at a place.
    #[tactic(auto, unfolding(crate::specs::Control::read_security_control))]
    pub fn read(s: &[u8], at: usize) -> Result<SecurityControl, Refusal>
        ensures { result ≡ read_security_control s.now at }
    {
        if left(s, at) < 1 {
            return Err(Refusal::Ended);
        }
        Ok(SecurityControl::from(u8_at(s, at)))
    }

    // Writes the byte at a place. Refuses a level above 7, then a place without room. (A writer of the form of
    // which `SuperframeSpecification::write` speaks.)
    pub fn write(self, out: &mut [u8], at: usize) -> Outcome
        ensures value { result ≡ write_value (level_too_large self) out.old at 1 }
        ensures out_after { out.new ≡
            after result out.old at (split 1 (security_control_bits self)) }
    {
        if 7 < self.security_level {
            return Err(Refusal::TooLarge);
        }
        if left(out, at) < 1 {
            return Err(Refusal::Ended);
        }
        put(u8::from(self) as u64, 1, out, at);
        Ok(1)
    }
}
