// The header of a frame: read from any slice, written into any slice, its lengths, and the edits that a bridge makes.
#![tactic(auto)]

ghost use Rattle.std.specs.Prelude.{◌+◌, ◌-◌, min, ◌≡◌, length, drop, Err};
ghost use Rattle.octets.specs.Buffer.{laid, after};
ghost use Rattle.security.specs.Optional.{counter_of};
ghost use Rattle.header.specs.Record.{header_of, pair_of, with_length, secured, octet_size};
ghost use Rattle.header.specs.Read.{header_in, read_header};
ghost use Rattle.header.specs.Write.{write_header, written_control, fixed_bytes, header_bytes};
ghost use Rattle.header.specs.Edit.{destination_replaced, source_replaced, source_removed, compression_off};
ghost use Rattle.header.specs.Edit.{compression_on, edit_number};

use address::{Address, address_at, address_octets, mode_of, shared_pan};
use address_pair::AddressPair;
use frame_control::{FrameControl, FrameType, FrameVersion};
use header_bytes::{destination_end, measure_header, own_destination, own_source, source_end};
use header_parts::{parts_length, write_answer};
use identifiers::PanId;
use octets::{Outcome, Refusal, left, put, u8_at, u16_at};
use security::{AuxiliarySecurityHeader, put_security, security_at};

// The fields of the Rust crate, and the length: how many bytes the header takes in a frame, where the payload begins.
// Who changes a part of it by hand makes the length right by `with_length`; writing refuses a wrong one with 8.
#[derive(Clone, Copy, Debug, PartialEq, Eq)]
pub struct Header {
    pub frame_type: FrameType,
    pub frame_pending: bool,
    pub ack_request: bool,
    pub pan_id_compress: bool,
    pub seq_no_suppress: bool,
    pub ie_present: bool,
    pub version: FrameVersion,
    pub seq: u8,
    pub destination: Option<Address>,
    pub source: Option<Address>,
    pub auxiliary_security_header: Option<AuxiliarySecurityHeader>,
    pub length: usize,
}

// The record of the fields of a slice, by its frame control.
fn header_in(s: &[u8], w: u16) -> Header
    ensures { result ≡ header_in s.now w }
{
    let word = w as usize;
    let control = FrameControl::of(w);
    let destination = address_at(s, 3, control.destination, own_destination(word), PanId(0));
    let source = address_at(
        s,
        destination_end(word),
        control.source,
        own_source(word),
        shared_pan(destination),
    );
    Header::of(
        control,
        u8_at(s, 2),
        destination,
        source,
        security_at(s, source_end(word), control.security),
    )
}

// Refusal 12 of an edit: the PAN ids are not to be shared. It holds the record as it was.
#[derive(Clone, Copy, Debug, PartialEq, Eq)]
pub struct Unshared(pub Header);

impl Unshared {
    // Its number in document 02.
    pub fn number(self) -> u8
        ensures { result ≡ edit_number (Err self) }
    {
        12
    }
}

impl Header {
    // The record of a frame control's type, version and flags, a sequence number, two addresses and a security header,
    // with its length. The frame control's security bit and modes are not looked at: the parts tell them.
    pub fn of(
        control: FrameControl,
        seq: u8,
        destination: Option<Address>,
        source: Option<Address>,
        auxiliary_security_header: Option<AuxiliarySecurityHeader>,
    ) -> Self
        ensures { result ≡ header_of control seq destination source auxiliary_security_header }
    {
        let parts = Header {
            frame_type: control.frame_type,
            frame_pending: control.frame_pending,
            ack_request: control.ack_request,
            pan_id_compress: control.pan_id_compress,
            seq_no_suppress: control.seq_no_suppress,
            ie_present: control.ie_present,
            version: control.version,
            seq,
            destination,
            source,
            auxiliary_security_header,
            length: 0,
        };
        parts.with_length()
    }

    // The addresses, under compression or not.
    fn pair(self) -> AddressPair
        ensures { result ≡ pair_of self }
    {
        AddressPair {
            compress: self.pan_id_compress,
            destination: self.destination,
            source: self.source,
        }
    }

    // The same record with the length of its parts, whatever was kept.
    pub fn with_length(mut self) -> Self
        ensures { result ≡ with_length self }
    {
        self.length = parts_length(self.pair(), self.auxiliary_security_header);
        self
    }

    // Reads the header at the beginning of a slice: the record with its length, or the first refusal in its order.
    pub fn read(s: &[u8]) -> Result<(Self, usize), Refusal>
        ensures { result ≡ read_header s.now }
    {
        let length = measure_header(s)?;
        Ok((header_in(s, u16_at(s, 0)), length))
    }

    // Reads the header at a place of a slice.
    pub fn read_at(s: &[u8], at: usize) -> Result<(Self, usize), Refusal>
        ensures { result ≡ read_header (drop at s.now) }
    {
        if at <= s.len() {
            Header::read(&s[at..])
        } else {
            Err(Refusal::Ended)
        }
    }

    // It has a security part.
    pub fn has_security(self) -> bool
        ensures { result ≡ secured self }
    {
        self.auxiliary_security_header.is_some()
    }

    // The Rust crate's number, blind to compression and security. The payload begins behind `length` bytes, not behind
    // these.
    pub fn get_octet_size(self) -> usize
        ensures { result ≡ octet_size self }
    {
        3 + address_octets(self.destination, true) + address_octets(self.source, true)
    }

    // The frame control as it is written: the flags of bits 8 and 9 are false.
    fn written_control(self) -> FrameControl
        ensures { result ≡ written_control self }
    {
        FrameControl {
            frame_type: self.frame_type,
            security: self.has_security(),
            frame_pending: self.frame_pending,
            ack_request: self.ack_request,
            pan_id_compress: self.pan_id_compress,
            seq_no_suppress: false,
            ie_present: false,
            destination: mode_of(self.destination),
            version: self.version,
            source: mode_of(self.source),
        }
    }

    // Stores frame control and sequence number, as much as has room, and returns the place behind.
    fn put_fixed(self, out: &mut [u8], at: usize) -> usize
        ensures value { result ≡ at + min 3 (length out.old - at) }
        ensures out_after { out.new ≡ laid out.old at (fixed_bytes self) }
    {
        let control = u16::from(self.written_control());
        let next = put(control as u64, 2, out, at);
        put(self.seq as u64, 1, out, next)
    }

    // Stores the whole header, as much as has room.
    fn put(self, out: &mut [u8], at: usize, counter: u32)
        ensures { out.new ≡ laid out.old at (header_bytes self counter) }
    {
        let next = self.put_fixed(out, at);
        let next = self.pair().put(out, next);
        put_security(self.auxiliary_security_header, out, next, counter);
    }

    // Writes the header at a place of a slice, with the frame counter that the caller hands over where it is secured.
    pub fn write_at(self, out: &mut [u8], at: usize, counter: Option<u32>) -> Outcome
        ensures value { result ≡ write_header self counter (length out.old - at) }
        ensures out_after { out.new ≡ after result out.old at (header_bytes self (counter_of counter)) }
    {
        let length = write_answer(
            self.length,
            self.pair(),
            self.auxiliary_security_header,
            counter,
            left(out, at),
        )?;
        self.put(out, at, counter.unwrap_or(0));
        Ok(length)
    }

    // Writes the header at the beginning of a slice, as `write_at` does.
    pub fn write(self, out: &mut [u8], counter: Option<u32>) -> Outcome
        ensures value { result ≡ write_header self counter (length out.old) }
        ensures out_after { out.new ≡ after result out.old 0 (header_bytes self (counter_of counter)) }
    {
        self.write_at(out, 0, counter)
    }

    // Replaces the destination, or adds it where there is none, and switches compression off.
    pub fn replace_destination(mut self, address: Address) -> Self
        ensures { result ≡ destination_replaced self address }
    {
        self.pan_id_compress = false;
        self.destination = Some(address);
        self.with_length()
    }

    // Replaces the source, or adds it where there is none, and switches compression off.
    pub fn replace_source(mut self, address: Address) -> Self
        ensures { result ≡ source_replaced self address }
    {
        self.pan_id_compress = false;
        self.source = Some(address);
        self.with_length()
    }

    // Removes the source and switches compression off, also where there is no source.
    pub fn remove_source(mut self) -> Self
        ensures { result ≡ source_removed self }
    {
        self.pan_id_compress = false;
        self.source = None;
        self.with_length()
    }

    // Switches compression off: the source's PAN id stands in the frame again.
    pub fn switch_compression_off(mut self) -> Self
        ensures { result ≡ compression_off self }
    {
        self.pan_id_compress = false;
        self.with_length()
    }

    // Switches compression on, unless an address is missing or the PAN ids differ: the record is then as it was.
    pub fn switch_compression_on(mut self) -> Result<Self, Unshared>
        ensures { result ≡ compression_on self }
    {
        if !self.pair().shares_pan() {
            return Err(Unshared(self));
        }
        self.pan_id_compress = true;
        Ok(self.with_length())
    }
}
