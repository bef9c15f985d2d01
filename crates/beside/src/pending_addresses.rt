// Pending addresses.
use crate::ask::{Ask, Record};
use crate::dump::{Dump, Dumped, build_all, dump_all};
use crate::text::Text;
use octets::{Outcome, Refusal};
use pending::PendingAddress;

// Each list with its count in front.
impl Dumped for PendingAddress {
    fn dump(self, text: &mut Text<'_>) {
        text.put_u8((self.short_address_count % 256) as u8);
        dump_all(&self.short_addresses, text);
        text.put_u8((self.extended_address_count % 256) as u8);
        dump_all(&self.extended_addresses, text);
    }

    fn build(dump: &mut Dump<'_>) -> Self {
        let mut pending = PendingAddress::new();
        pending.short_address_count = dump.u8() as usize;
        build_all(dump, &mut pending.short_addresses);
        pending.extended_address_count = dump.u8() as usize;
        build_all(dump, &mut pending.extended_addresses);
        pending
    }
}

impl Record for PendingAddress {
    fn reading(s: &[u8], place: usize) -> Result<(Self, usize), Refusal> {
        let read = PendingAddress::read(s, place);
        read.outcome.map(|n| (read.pending_address, n))
    }

    fn writing(self, ask: Ask, room: &mut [u8]) -> Outcome {
        self.write(room, ask.at)
    }
}
