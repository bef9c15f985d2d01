// Headers.
use crate::ask::{Ask, Record};
use crate::dump::{Dump, Dumped};
use crate::text::Text;
use address::{Address, mode_of};
use frame_control::{FrameControl, FrameType, FrameVersion};
use header::Header;
use octets::{Outcome, Refusal};
use security::{AuxiliarySecurityHeader, counter_read};

// The last byte is the kept length, 37 at most.
impl Dumped for Header {
    fn dump(self, text: &mut Text<'_>) {
        text.put_u8(u8::from(self.frame_type));
        text.put_flag(self.frame_pending);
        text.put_flag(self.ack_request);
        text.put_flag(self.pan_id_compress);
        text.put_flag(self.seq_no_suppress);
        text.put_flag(self.ie_present);
        text.put_u8(u8::from(self.version));
        text.put_u8(self.seq);
        self.destination.dump(text);
        self.source.dump(text);
        self.auxiliary_security_header.dump(text);
        text.put_u8((self.length % 256) as u8);
    }

    // A type or a version that is not known counts as 0. It keeps the length that is given, and the right one where
    // that is 0.
    fn build(dump: &mut Dump<'_>) -> Self {
        let frame_type = FrameType::try_from(dump.u8());
        let frame_pending = dump.flag();
        let ack_request = dump.flag();
        let pan_id_compress = dump.flag();
        let seq_no_suppress = dump.flag();
        let ie_present = dump.flag();
        let version = FrameVersion::try_from(dump.u8());
        let seq = dump.u8();
        let destination = Option::<Address>::build(dump);
        let source = Option::<Address>::build(dump);
        let security = Option::<AuxiliarySecurityHeader>::build(dump);
        let kept = dump.u8();
        let control = FrameControl {
            frame_type: frame_type.unwrap_or(FrameType::Beacon),
            security: security.is_some(),
            frame_pending,
            ack_request,
            pan_id_compress,
            seq_no_suppress,
            ie_present,
            destination: mode_of(destination),
            version: version.unwrap_or(FrameVersion::Ieee802154_2003),
            source: mode_of(source),
        };
        let mut header = Header::of(control, seq, destination, source, security);
        if kept != 0 {
            header.length = kept as usize;
        }
        header
    }
}

// It is read from the beginning, wherever the command says.
impl Record for Header {
    fn reading(s: &[u8], _place: usize) -> Result<(Self, usize), Refusal> {
        Header::read(s)
    }

    fn writing(self, ask: Ask, room: &mut [u8]) -> Outcome {
        let own = counter_read(self.auxiliary_security_header);
        self.write(room, ask.counter(own))
    }
}
