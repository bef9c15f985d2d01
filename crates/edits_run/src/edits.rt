// The edits of a line, parted by commas: each a letter, and behind `d` and `s` a PAN id and an address in hex, the
// highest digit first.
use address::Address;
use header::{Header, Unshared};
use hexadecimal::decode_by;
use identifiers::{ExtendedAddress, PanId, ShortAddress};

#[derive(Clone, Copy)]
pub(crate) enum Edit {
    ReplaceDestination(Address),
    ReplaceSource(Address),
    RemoveSource,
    SwitchCompressionOff,
    SwitchCompressionOn,
}

impl Edit {
    // The edit that a text is.
    pub(crate) fn of(text: &[u8], values: &[u16; 256]) -> Option<Self> {
        match text {
            [b'd', digits @ ..] => Some(Edit::ReplaceDestination(address_of(digits, values)?)),
            [b's', digits @ ..] => Some(Edit::ReplaceSource(address_of(digits, values)?)),
            [b'r'] => Some(Edit::RemoveSource),
            [b'f'] => Some(Edit::SwitchCompressionOff),
            [b'n'] => Some(Edit::SwitchCompressionOn),
            _ => None,
        }
    }

    // The record behind the edit. Only switching compression on can be refused.
    pub(crate) fn apply_to(self, header: Header) -> Result<Header, Unshared> {
        match self {
            Edit::ReplaceDestination(address) => Ok(header.replace_destination(address)),
            Edit::ReplaceSource(address) => Ok(header.replace_source(address)),
            Edit::RemoveSource => Ok(header.remove_source()),
            Edit::SwitchCompressionOff => Ok(header.switch_compression_off()),
            Edit::SwitchCompressionOn => header.switch_compression_on(),
        }
    }
}

// The PAN id and the address behind it that digits stand for: four bytes or ten.
fn address_of(digits: &[u8], values: &[u16; 256]) -> Option<Address> {
    let mut bytes = [0u8; 10];
    let count = decode_by(digits, 0, values, &mut bytes);
    let [p, q, a, b, c, d, e, f, g, h] = bytes;
    let pan_id = PanId(u16::from_be_bytes([p, q]));
    match (count, digits.len()) {
        (4, 8) => Some(Address::Short(pan_id, ShortAddress(u16::from_be_bytes([a, b])))),
        (10, 20) => Some(Address::Extended(
            pan_id,
            ExtendedAddress(u64::from_be_bytes([a, b, c, d, e, f, g, h])),
        )),
        _ => None,
    }
}
