// PAN ids, short and extended addresses, and the addresses of a header.
use crate::ask::{Ask, Record};
use crate::dump::{Dump, Dumped};
use crate::text::Text;
use address::{Address, mode_of, shared_pan};
use identifiers::{ExtendedAddress, Identifier, PanId, ShortAddress};
use octets::{Outcome, Refusal};

// An identifier at a place, and how many bytes it takes.
fn identifier_at<T: Identifier>(s: &[u8], place: usize) -> Result<(T, usize), Refusal> {
    T::read(s, place).map(|identifier| (identifier, T::WIDTH))
}

// Each of the three has an impl of its own: one for every `Identifier` would conflict with those of the other records.
impl Dumped for PanId {
    fn dump(self, text: &mut Text<'_>) {
        text.put_hex(&self.0.to_le_bytes());
    }

    fn build(dump: &mut Dump<'_>) -> Self {
        PanId(dump.u16())
    }
}

impl Record for PanId {
    fn reading(s: &[u8], place: usize) -> Result<(Self, usize), Refusal> {
        identifier_at(s, place)
    }

    fn writing(self, ask: Ask, room: &mut [u8]) -> Outcome {
        self.write(room, ask.at)
    }
}

impl Dumped for ShortAddress {
    fn dump(self, text: &mut Text<'_>) {
        text.put_hex(&self.0.to_le_bytes());
    }

    fn build(dump: &mut Dump<'_>) -> Self {
        ShortAddress(dump.u16())
    }
}

impl Record for ShortAddress {
    fn reading(s: &[u8], place: usize) -> Result<(Self, usize), Refusal> {
        identifier_at(s, place)
    }

    fn writing(self, ask: Ask, room: &mut [u8]) -> Outcome {
        self.write(room, ask.at)
    }
}

impl Dumped for ExtendedAddress {
    fn dump(self, text: &mut Text<'_>) {
        text.put_hex(&self.0.to_le_bytes());
    }

    fn build(dump: &mut Dump<'_>) -> Self {
        ExtendedAddress(dump.u64())
    }
}

impl Record for ExtendedAddress {
    fn reading(s: &[u8], place: usize) -> Result<(Self, usize), Refusal> {
        identifier_at(s, place)
    }

    fn writing(self, ask: Ask, room: &mut [u8]) -> Outcome {
        self.write(room, ask.at)
    }
}

// Its mode, its PAN id, and the address as a number, 0 where there is none.
impl Dumped for Option<Address> {
    fn dump(self, text: &mut Text<'_>) {
        let number = match self {
            Some(Address::Short(_, short)) => short.0 as u64,
            Some(Address::Extended(_, extended)) => extended.0,
            None => 0,
        };
        text.put_u8(u8::from(mode_of(self)));
        shared_pan(self).dump(text);
        text.put_hex(&number.to_le_bytes());
    }

    fn build(dump: &mut Dump<'_>) -> Self {
        let mode = dump.u8();
        let pan_id = PanId::build(dump);
        let number = dump.u64();
        match mode {
            2 => {
                let short = ShortAddress((number % 65536) as u16);
                Some(Address::Short(pan_id, short))
            }
            3 => Some(Address::Extended(pan_id, ExtendedAddress(number))),
            _ => None,
        }
    }
}
