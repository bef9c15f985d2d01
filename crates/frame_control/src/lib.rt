// The frame control field: frame type, version and address modes by their bits, and the two bytes taken apart and put
// together.
#![tactic(auto)]

ghost use Rattle.std.specs.Prelude.{◌≤◌, ◌≡◌};
ghost use Rattle.frame_control.specs.Types.{type_of, type_bits};
ghost use Rattle.frame_control.specs.Versions.{version_of, version_bits};
ghost use Rattle.frame_control.specs.Modes.{mode_of, mode_bits};
ghost use Rattle.frame_control.specs.Control.{control_of, control_in, control_bits};

use octets::Refusal;

#[derive(Clone, Copy, Debug, PartialEq, Eq)]
pub enum FrameType {
    Beacon,
    Data,
    Acknowledgement,
    MacCommand,
    Multipurpose,
    FragOrFragAck,
    Extended,
}

// The whole byte is looked at: 8 is refused, and is not type 0.
impl TryFrom<u8> for FrameType {
    type Error = Refusal;

    ghost try_from_gives = { λ bits r. r ≡ type_of bits };

    #[tactic(auto, unfolding(crate::specs::Types::type_of))]
    fn try_from(bits: u8) -> Result<Self, Refusal> {
        match bits {
            0 => Ok(FrameType::Beacon),
            1 => Ok(FrameType::Data),
            2 => Ok(FrameType::Acknowledgement),
            3 => Ok(FrameType::MacCommand),
            5 => Ok(FrameType::Multipurpose),
            6 => Ok(FrameType::FragOrFragAck),
            7 => Ok(FrameType::Extended),
            _ => Err(Refusal::FrameType),
        }
    }
}

impl From<FrameType> for u8 {
    ghost from_gives = { λ frame_type n. (n ≡ type_bits frame_type) × (n ≤ 7) };

    fn from(frame_type: FrameType) -> u8 {
        match frame_type {
            FrameType::Beacon => 0,
            FrameType::Data => 1,
            FrameType::Acknowledgement => 2,
            FrameType::MacCommand => 3,
            FrameType::Multipurpose => 5,
            FrameType::FragOrFragAck => 6,
            FrameType::Extended => 7,
        }
    }
}

#[derive(Clone, Copy, Debug, PartialEq, Eq)]
pub enum FrameVersion {
    Ieee802154_2003,
    Ieee802154_2006,
    Ieee802154,
}

// The whole byte is looked at: each number above 2 is refused.
impl TryFrom<u8> for FrameVersion {
    type Error = Refusal;

    ghost try_from_gives = { λ bits r. r ≡ version_of bits };

    #[tactic(auto, unfolding(crate::specs::Versions::version_of))]
    fn try_from(bits: u8) -> Result<Self, Refusal> {
        match bits {
            0 => Ok(FrameVersion::Ieee802154_2003),
            1 => Ok(FrameVersion::Ieee802154_2006),
            2 => Ok(FrameVersion::Ieee802154),
            _ => Err(Refusal::Version),
        }
    }
}

impl From<FrameVersion> for u8 {
    ghost from_gives = { λ version n. (n ≡ version_bits version) × (n ≤ 2) };

    fn from(version: FrameVersion) -> u8 {
        match version {
            FrameVersion::Ieee802154_2003 => 0,
            FrameVersion::Ieee802154_2006 => 1,
            FrameVersion::Ieee802154 => 2,
        }
    }
}

#[derive(Clone, Copy, Debug, PartialEq, Eq)]
pub enum AddressMode {
    None,
    Short,
    Extended,
}

// The whole byte is looked at: 1 is refused, and each number above 3.
impl TryFrom<u8> for AddressMode {
    type Error = Refusal;

    ghost try_from_gives = { λ bits r. r ≡ mode_of bits };

    #[tactic(auto, unfolding(crate::specs::Modes::mode_of))]
    fn try_from(bits: u8) -> Result<Self, Refusal> {
        match bits {
            0 => Ok(AddressMode::None),
            2 => Ok(AddressMode::Short),
            3 => Ok(AddressMode::Extended),
            _ => Err(Refusal::AddressMode),
        }
    }
}

impl From<AddressMode> for u8 {
    ghost from_gives = { λ mode n. (n ≡ mode_bits mode) × (n ≤ 3) };

    fn from(mode: AddressMode) -> u8 {
        match mode {
            AddressMode::None => 0,
            AddressMode::Short => 2,
            AddressMode::Extended => 3,
        }
    }
}

// The ten fields of the frame control; the two address modes bear the names of the addresses that they announce.
#[derive(Clone, Copy, Debug, PartialEq, Eq)]
pub struct FrameControl {
    pub frame_type: FrameType,
    pub security: bool,
    pub frame_pending: bool,
    pub ack_request: bool,
    pub pan_id_compress: bool,
    pub seq_no_suppress: bool,
    pub ie_present: bool,
    pub destination: AddressMode,
    pub version: FrameVersion,
    pub source: AddressMode,
}

impl FrameControl {
    // The fields of the two bytes, as one number; bit 7 is not looked at. A type, version or mode that is not known
    // counts as 0.
    pub fn of(bits: u16) -> Self
        ensures { result ≡ control_of bits }
    {
        let frame_type = FrameType::try_from((bits % 8) as u8);
        let destination = AddressMode::try_from((bits / 1024 % 4) as u8);
        let version = FrameVersion::try_from((bits / 4096 % 4) as u8);
        let source = AddressMode::try_from((bits / 16384 % 4) as u8);
        FrameControl {
            frame_type: frame_type.unwrap_or(FrameType::Beacon),
            security: bits / 8 % 2 == 1,
            frame_pending: bits / 16 % 2 == 1,
            ack_request: bits / 32 % 2 == 1,
            pan_id_compress: bits / 64 % 2 == 1,
            seq_no_suppress: bits / 256 % 2 == 1,
            ie_present: bits / 512 % 2 == 1,
            destination: destination.unwrap_or(AddressMode::None),
            version: version.unwrap_or(FrameVersion::Ieee802154_2003),
            source: source.unwrap_or(AddressMode::None),
        }
    }
}

// What the two bytes say, as one number, or the first refusal in the order version, type, destination mode, source
// mode.
impl TryFrom<u16> for FrameControl {
    type Error = Refusal;

    ghost try_from_gives = { λ bits r. r ≡ control_in bits };

    fn try_from(bits: u16) -> Result<Self, Refusal> {
        if bits / 4096 % 4 == 3 {
            return Err(Refusal::Version);
        }
        if bits % 8 == 4 {
            return Err(Refusal::FrameType);
        }
        if bits / 1024 % 4 == 1 {
            return Err(Refusal::AddressMode);
        }
        if bits / 16384 % 4 == 1 {
            return Err(Refusal::AddressMode);
        }
        Ok(FrameControl::of(bits))
    }
}

// The field with bit 7 clear.
impl From<FrameControl> for u16 {
    ghost from_gives = { λ control n. n ≡ control_bits control };

    fn from(control: FrameControl) -> u16 {
        let low = u8::from(control.frame_type)
            + 8 * u8::from(control.security)
            + 16 * u8::from(control.frame_pending)
            + 32 * u8::from(control.ack_request)
            + 64 * u8::from(control.pan_id_compress);
        let high = u8::from(control.seq_no_suppress)
            + 2 * u8::from(control.ie_present)
            + 4 * u8::from(control.destination)
            + 16 * u8::from(control.version)
            + 64 * u8::from(control.source);
        u16::from(low) + 256 * u16::from(high)
    }
}
