// The dumps of records: what is known of a value, byte by byte, the lower byte of a number first (oracle/FORMAT.md).
use crate::text::Text;

// What is still to be read of a dump. Behind its end there are zeros, so that nothing is asked of a caller.
#[derive(Clone, Copy)]
pub(crate) struct Dump<'a> {
    pub(crate) rest: &'a [u8],
}

impl<'a> Dump<'a> {
    pub(crate) fn of(bytes: &'a [u8]) -> Self {
        Dump { rest: bytes }
    }

    pub(crate) fn u8(&mut self) -> u8 {
        let Some((byte, rest)) = self.rest.split_first() else {
            return 0;
        };
        self.rest = rest;
        *byte
    }

    pub(crate) fn flag(&mut self) -> bool {
        self.u8() == 1
    }

    pub(crate) fn u16(&mut self) -> u16 {
        let low = self.u8();
        let high = self.u8();
        u16::from_le_bytes([low, high])
    }

    pub(crate) fn u32(&mut self) -> u32 {
        let low = self.u16();
        let high = self.u16();
        low as u32 + 65536 * high as u32
    }

    pub(crate) fn u64(&mut self) -> u64 {
        let low = self.u32();
        let high = self.u32();
        low as u64 + 4294967296 * high as u64
    }
}

// What is dumped, and built from its dump.
pub(crate) trait Dumped: Copy {
    fn dump(self, text: &mut Text<'_>);

    fn build(dump: &mut Dump<'_>) -> Self;
}

pub(crate) fn dump_all<D: Dumped>(values: &[D], text: &mut Text<'_>) {
    for value in values {
        value.dump(text);
    }
}

pub(crate) fn build_all<D: Dumped>(dump: &mut Dump<'_>, values: &mut [D]) {
    for value in values.iter_mut() {
        *value = D::build(dump);
    }
}
