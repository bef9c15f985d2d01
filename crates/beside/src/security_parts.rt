// Security controls and auxiliary security headers.
use crate::ask::{Ask, Record};
use crate::dump::{Dump, Dumped};
use crate::text::Text;
use key_identifier::{KeyIdentifier, KeySource, mode_of_key};
use octets::{Outcome, Refusal};
use security::AuxiliarySecurityHeader;
use security_control::{KeyIdentifierMode, SecurityControl};

impl Dumped for KeyIdentifierMode {
    fn dump(self, text: &mut Text<'_>) {
        text.put_u8(u8::from(self));
    }

    fn build(dump: &mut Dump<'_>) -> Self {
        match dump.u8() {
            1 => KeyIdentifierMode::KeyIndex,
            2 => KeyIdentifierMode::KeySource4,
            3 => KeyIdentifierMode::KeySource8,
            _ => KeyIdentifierMode::None,
        }
    }
}

impl Dumped for SecurityControl {
    fn dump(self, text: &mut Text<'_>) {
        let mode = self.key_id_mode;
        text.put_u8(self.security_level);
        mode.dump(text);
    }

    fn build(dump: &mut Dump<'_>) -> Self {
        SecurityControl {
            security_level: dump.u8(),
            key_id_mode: KeyIdentifierMode::build(dump),
        }
    }
}

impl Record for SecurityControl {
    fn reading(s: &[u8], place: usize) -> Result<(Self, usize), Refusal> {
        SecurityControl::read(s, place).map(|control| (control, 1))
    }

    fn writing(self, ask: Ask, room: &mut [u8]) -> Outcome {
        self.write(room, ask.at)
    }
}

// A key source as a number, 0 where there is none.
fn number_of(source: Option<KeySource>) -> u64 {
    match source {
        None => 0,
        Some(KeySource::Short(four)) => four as u64,
        Some(KeySource::Long(eight)) => eight,
    }
}

// Its mode, its source as a number, and its index, zeros where there is none.
impl Dumped for Option<KeyIdentifier> {
    fn dump(self, text: &mut Text<'_>) {
        let (source, index) = self.map_or((0, 0), |key| (number_of(key.key_source), key.key_index));
        mode_of_key(self).dump(text);
        text.put_hex(&source.to_le_bytes());
        text.put_u8(index);
    }

    fn build(dump: &mut Dump<'_>) -> Self {
        let mode = dump.u8();
        let number = dump.u64();
        let key_index = dump.u8();
        let key_source = match mode {
            0 => return None,
            2 => Some(KeySource::Short((number % 4294967296) as u32)),
            3 => Some(KeySource::Long(number)),
            _ => None,
        };
        Some(KeyIdentifier {
            key_source,
            key_index,
        })
    }
}

impl Dumped for AuxiliarySecurityHeader {
    fn dump(self, text: &mut Text<'_>) {
        let control = self.control;
        let key = self.key_identifier;
        control.dump(text);
        text.put_hex(&self.frame_counter.to_le_bytes());
        key.dump(text);
    }

    fn build(dump: &mut Dump<'_>) -> Self {
        AuxiliarySecurityHeader {
            control: SecurityControl::build(dump),
            frame_counter: dump.u32(),
            key_identifier: Option::<KeyIdentifier>::build(dump),
        }
    }
}

impl Record for AuxiliarySecurityHeader {
    fn reading(s: &[u8], place: usize) -> Result<(Self, usize), Refusal> {
        AuxiliarySecurityHeader::read(s, place)
    }

    fn writing(self, ask: Ask, room: &mut [u8]) -> Outcome {
        let own = Some(self.get_frame_counter());
        self.write(room, ask.at, ask.counter(own))
    }

    fn put_size(self, text: &mut Text<'_>) {
        text.put_decimal(self.get_octet_size());
        text.put_tab();
    }
}

// The security part of a header; one that is absent is dumped as that of no bytes, all zeros.
impl Dumped for Option<AuxiliarySecurityHeader> {
    fn dump(self, text: &mut Text<'_>) {
        text.put_flag(self.is_some());
        self.unwrap_or(AuxiliarySecurityHeader::build(&mut Dump::of(b"")))
            .dump(text);
    }

    fn build(dump: &mut Dump<'_>) -> Self {
        let present = dump.flag();
        let security = AuxiliarySecurityHeader::build(dump);
        if present { Some(security) } else { None }
    }
}
