// The GTS information of a beacon: a header with permit and count, and for a count above 0 a byte of directions and the
// descriptors of the guaranteed time slots (GTS), three bytes each. No public function asks anything; reading and
// writing measure before they call those that do (`requires`).
#![tactic(auto)]

ghost use Rattle.std.specs.Prelude.{◌+◌, ◌-◌, ◌*◌, ◌≤◌, ◌<◌, false, cond, ◌≡◌, length, take};
ghost use Rattle.octets.specs.Buffer.{laid, after};
ghost use Rattle.seven_places.specs.Seven.{some};
ghost use Rattle.time_slots.specs.Direction.{direction_bit, direction_of};
ghost use Rattle.time_slots.specs.Descriptor.{empty_descriptor, descriptor_in, read_descriptor};
ghost use Rattle.time_slots.specs.Descriptor.{descriptor_bytes, descriptor_too_large, write_descriptor};
ghost use Rattle.time_slots.specs.Width.{descriptor_length};
ghost use Rattle.time_slots.specs.TimeSlots.{slots_length, slot_at, slots_in, empty_time_slots};
ghost use Rattle.time_slots.specs.TimeSlots.{slots_of, time_slots_refused, read_time_slots, directions_of, list_bytes};
ghost use Rattle.time_slots.specs.TimeSlots.{time_slots_header, time_slots_bytes, time_slots_size};
ghost use Rattle.time_slots.specs.TimeSlots.{slot_count_too_large, time_slots_too_large, write_time_slots};

use identifiers::ShortAddress;
use octets::{Outcome, Refusal, left, put, u8_at, u16_at};
use seven_places::{Entry, Listed};

// Which way a slot is used by the device that it is for.
#[derive(Clone, Copy, Debug, PartialEq, Eq)]
pub enum Direction {
    Receive,
    Transmit,
}

// The bit that stands for a direction: only here is it said which of the two a set bit means.
impl From<Direction> for u8 {
    ghost from_gives = { λ d r. (r ≡ direction_bit d) × (r ≤ 1) };

    fn from(direction: Direction) -> Self {
        match direction {
            Direction::Receive => 1,
            Direction::Transmit => 0,
        }
    }
}

// The direction that a bit stands for.
impl From<u8> for Direction {
    ghost from_gives = { λ b r. r ≡ direction_of b };

    fn from(bit: u8) -> Self {
        if bit == u8::from(Direction::Transmit) {
            Direction::Transmit
        } else {
            Direction::Receive
        }
    }
}

// One slot of the list.
#[derive(Clone, Copy, Debug, PartialEq, Eq)]
pub struct GuaranteedTimeSlotDescriptor {
    // The device that the slot is for.
    pub short_address: ShortAddress,
    // The first slot and how many there are, 0 to 15 each.
    pub starting_slot: u8,
    pub length: u8,
    pub direction: Direction,
}

// What reading a descriptor answers; refused, with the empty one, which a Result would not hand out.
// Each of the five answers of a beacon and its parts names what was read: one struct for all would lose that name.
#[derive(Clone, Copy, Debug, PartialEq, Eq)]
pub struct DescriptorRead {
    pub outcome: Outcome,
    pub slot: GuaranteedTimeSlotDescriptor,
}

impl GuaranteedTimeSlotDescriptor {
    // A descriptor as in an unused place.
    pub fn new() -> Self
        ensures { result ≡ empty_descriptor }
    {
        GuaranteedTimeSlotDescriptor {
            short_address: ShortAddress::BROADCAST,
            starting_slot: 0,
            length: 0,
            direction: Direction::Receive,
        }
    }

    // The descriptor in three bytes, with its direction, which stands elsewhere. Asks that they are there.
    fn at(s: &[u8], at: usize, direction: Direction) -> Self
        requires { at + 3 ≤ length s.now }
        ensures { result ≡ descriptor_in s.now at direction }
    {
        let short_address = ShortAddress(u16_at(s, at));
        let slot = u8_at(s, at + 2);
        GuaranteedTimeSlotDescriptor {
            short_address,
            starting_slot: slot % 16,
            length: slot / 16 % 16,
            direction,
        }
    }

    // Reads the three bytes at a place: refusal 1 where they are not there. Read alone it is Receive, as in an unused
    // place: its bit stands in another byte.
    #[tactic(auto, unfolding(crate::specs::Descriptor::read_descriptor))]
    pub fn read(s: &[u8], at: usize) -> DescriptorRead
        ensures { result ≡ read_descriptor s.now at }
    {
        if left(s, at) < 3 {
            return DescriptorRead {
                outcome: Err(Refusal::Ended),
                slot: GuaranteedTimeSlotDescriptor::new(),
            };
        }
        DescriptorRead {
            outcome: Ok(3),
            slot: GuaranteedTimeSlotDescriptor::at(s, at, Direction::Receive),
        }
    }

    // A start or a length above 15: refusal 8.
    pub fn too_large(self) -> bool
        ensures { result ≡ descriptor_too_large self }
    {
        15 < self.starting_slot || 15 < self.length
    }

    // Writes the three bytes at a place; refused, out keeps every byte. The direction has no bit of its own here.
    #[tactic(auto, unfolding(crate::specs::Descriptor::write_descriptor))]
    pub fn write(self, out: &mut [u8], at: usize) -> Outcome
        ensures value { result ≡ write_descriptor self out.old at }
        ensures out_after { out.new ≡ after result out.old at (descriptor_bytes self) }
    {
        if self.too_large() {
            return Err(Refusal::TooLarge);
        }
        if left(out, at) < 3 {
            return Err(Refusal::Ended);
        }
        self.put(out, at);
        Ok(3)
    }
}

impl Entry for GuaranteedTimeSlotDescriptor {
    const WIDTH: usize = 3;

    ghost WIDTH = { 3 };

    ghost bytes = { descriptor_bytes };

    ghost width = { descriptor_length };

    fn put(self, out: &mut [u8], at: usize) -> usize {
        let slot = self.starting_slot as u64 + 16 * self.length as u64;
        let next = self.short_address.put(out, at);
        put(slot, 1, out, next)
    }
}

// How many bytes n slots take behind the header.
pub fn slots_length(n: u8) -> usize
    ensures value { result ≡ slots_length n }
    ensures upper_bound { result ≤ 1 + 3 * n }
{
    if n == 0 { 0 } else { 1 + 3 * (n as usize) }
}

// Slot k of the list whose directions stand at a place. Asks that both are there.
fn slot_at(s: &[u8], at: usize, k: usize) -> GuaranteedTimeSlotDescriptor
    requires k_bound { k < 7 }
    requires k_in_bounds { at + 1 + 3 * k + 3 ≤ length s.now }
    ensures { result ≡ slot_at s.now at k }
{
    let direction = Direction::from((u8_at(s, at) >> k) % 2);
    GuaranteedTimeSlotDescriptor::at(s, at + 1 + 3 * k, direction)
}

// The n slots of the list at a place, and empty ones behind them. Asks that they are there and at most seven.
fn slots_at(s: &[u8], at: usize, n: usize) -> [GuaranteedTimeSlotDescriptor; 7]
    requires n_bound { n ≤ 7 }
    requires n_in_bounds { at + slots_length n ≤ length s.now }
    ensures { result ≡ slots_in s.now at n }
{
    let mut slots = [GuaranteedTimeSlotDescriptor::new(); 7];
    for k in 0..n {
        slots[k] = slot_at(s, at, k);
    }
    slots
}

// Some of the slots in use has a number too large.
fn some_too_large(slots: Listed<GuaranteedTimeSlotDescriptor>) -> bool
    ensures { result ≡ some descriptor_too_large (take slots.count slots.places) }
{
    slots
        .places
        .iter()
        .take(slots.count)
        .any(|slot| slot.too_large())
}

// The byte of the directions of the slots in use. Asks for at most seven, as the stores below do: `Listed` has to hold
// more, which are refused.
fn directions(slots: Listed<GuaranteedTimeSlotDescriptor>) -> u8
    requires { slots.count ≤ 7 }
    ensures { result ≡ directions_of (take slots.count slots.places) }
{
    let mut byte = 0;
    for slot in slots.places[..slots.count].iter().rev() {
        byte = u8::from(slot.direction) + 2 * byte;
    }
    byte
}

// Stores what follows the header: for any slot, the directions and the slots. Asks for at most seven.
fn put_list(slots: Listed<GuaranteedTimeSlotDescriptor>, out: &mut [u8], at: usize)
    requires { slots.count ≤ 7 }
    ensures { out.new ≡ laid out.old at (list_bytes (take slots.count slots.places)) }
{
    if slots.count == 0 {
        return;
    }
    let byte = directions(slots);
    let next = put(byte as u64, 1, out, at);
    slots.put(out, next);
}

// The header and the list.
#[derive(Clone, Copy, Debug, PartialEq, Eq)]
pub struct GuaranteedTimeSlotInformation {
    // The coordinator takes requests for slots.
    pub permit: bool,
    // How many places of `slots` are in use, at most 7 in a record that can be written: a larger count can be made, and
    // is refused with 8, so no type rules it out.
    pub slot_count: usize,
    pub slots: [GuaranteedTimeSlotDescriptor; 7],
}

// What reading GTS information answers; refused, with the empty one, which a Result would not hand out.
#[derive(Clone, Copy, Debug, PartialEq, Eq)]
pub struct TimeSlotsRead {
    pub outcome: Outcome,
    pub guaranteed_time_slot_info: GuaranteedTimeSlotInformation,
}

impl TimeSlotsRead {
    fn refused() -> Self
        ensures { result ≡ time_slots_refused }
    {
        let guaranteed_time_slot_info = GuaranteedTimeSlotInformation::new();
        TimeSlotsRead {
            outcome: Err(Refusal::Ended),
            guaranteed_time_slot_info,
        }
    }
}

impl GuaranteedTimeSlotInformation {
    // No permit and no slots.
    pub fn new() -> Self
        ensures { result ≡ empty_time_slots }
    {
        let slots = [GuaranteedTimeSlotDescriptor::new(); 7];
        GuaranteedTimeSlotInformation {
            permit: false,
            slot_count: 0,
            slots,
        }
    }

    // The slots, as the record has them.
    pub fn slots(self) -> Listed<GuaranteedTimeSlotDescriptor>
        ensures { result ≡ slots_of self }
    {
        let places = self.slots;
        Listed {
            count: self.slot_count,
            places,
        }
    }

    // Reads it at a place: refusal 1 where its bytes are not all there. What stands behind them is not asked for.
    pub fn read(s: &[u8], at: usize) -> TimeSlotsRead
        ensures { result ≡ read_time_slots s.now at }
    {
        if left(s, at) < 1 {
            return TimeSlotsRead::refused();
        }
        let header = u8_at(s, at);
        let n = header % 8;
        if left(s, at) < 1 + slots_length(n) {
            return TimeSlotsRead::refused();
        }
        let slots = slots_at(s, at + 1, n as usize);
        TimeSlotsRead {
            outcome: Ok(1 + slots_length(n)),
            guaranteed_time_slot_info: GuaranteedTimeSlotInformation {
                permit: header / 128 % 2 == 1,
                slot_count: n as usize,
                slots,
            },
        }
    }

    // A count above 7, or a slot in use with a number too large: refusal 8.
    pub fn too_large(self) -> bool
        ensures { result ≡ time_slots_too_large self }
    {
        if 7 < self.slot_count {
            return true;
        }
        some_too_large(self.slots())
    }

    // How many bytes it is written in, 0 where its count is above 7.
    pub fn size(self) -> usize
        ensures value { result ≡ cond (slot_count_too_large self) 0 (time_slots_size self) }
        ensures upper_bound { result ≤ 23 }
    {
        if self.slot_count <= 7 {
            1 + slots_length(self.slot_count as u8)
        } else {
            0
        }
    }

    // The byte of permit and count. Asks for a count of at most seven.
    fn header(self) -> u8
        requires { self.slot_count ≤ 7 }
        ensures { result ≡ time_slots_header self }
    {
        self.slot_count as u8 + 128 * u8::from(self.permit)
    }

    // Stores it. Asks for a count of at most seven.
    fn put(self, out: &mut [u8], at: usize)
        requires { self.slot_count ≤ 7 }
        ensures { out.new ≡ laid out.old at (time_slots_bytes self) }
    {
        let header = self.header();
        let next = put(header as u64, 1, out, at);
        put_list(self.slots(), out, next);
    }

    // Writes it at a place; refused, out keeps every byte.
    pub fn write(self, out: &mut [u8], at: usize) -> Outcome
        ensures value { result ≡ write_time_slots self out.old at }
        ensures out_after { out.new ≡ after result out.old at (time_slots_bytes self) }
    {
        if self.too_large() {
            return Err(Refusal::TooLarge);
        }
        let n = self.size();
        if left(out, at) < n {
            return Err(Refusal::Ended);
        }
        self.put(out, at);
        Ok(n)
    }
}
