// The bits that writing clears, cleared where they stand. The functions ask for what they touch (`requires`): rewriting
// measures first.
ghost use Rattle.std.specs.Prelude.{◌<◌, true, ◌≡◌, length};
ghost use Rattle.octets.specs.Bits.{bit, clear_at};
ghost use Rattle.header_bytes.specs.{Layout.source_end, Cleared.cleared_by};
ghost use Rattle.beacon_facts.specs.Cleared.{clear_directions};

use bit_span::BitSpan;
use header_bytes::source_end;

// Clears bits of the byte at a place. Asks that the byte is there.
fn clear_at(bits: BitSpan, out: &mut [u8], place: usize)
    requires { place < length out.old }
    ensures { out.new ≡ clear_at place bits.at bits.count out.old }
{
    out[place] = bits.cleared(out[place]);
}

// Clears the listed bits of a header at the beginning, by its frame control. Asks that their bytes are there.
pub(crate) fn clear_header(w: usize, out: &mut [u8])
    requires in_bounds { 1 < length out.old }
    requires w_in_bounds { bit w 3 ≡ true → source_end w < length out.old }
    ensures { out.new ≡ cleared_by w out.old }
{
    clear_at(BitSpan { at: 7, count: 1 }, out, 0);
    clear_at(BitSpan { at: 0, count: 2 }, out, 1);
    if w / 8 % 2 == 1 {
        clear_at(BitSpan { at: 5, count: 3 }, out, source_end(w));
    }
}

// Clears the direction bits of a beacon at the beginning that belong to none of its n slots. Asks that their byte is
// there, and n below 8, which it is as three bits of a byte.
fn clear_directions(n: u8, out: &mut [u8])
    requires n_bound { n < 8 }
    requires in_bounds { 3 < length out.old }
    ensures { out.new ≡ clear_directions n 3 out.old }
{
    if n != 0 {
        let past = BitSpan {
            at: n,
            count: 8 - n,
        };
        clear_at(past, out, 3);
    }
}

// Clears the listed bits of a beacon with n slots at the beginning, up to its descriptors. Asks that their bytes are
// there, and n below 8.
pub(crate) fn clear_slots(n: u8, out: &mut [u8])
    requires n_bound { n < 8 }
    requires in_bounds { 3 < length out.old }
    ensures { out.new ≡ clear_directions n 3 (clear_at 2 3 4 (clear_at 1 5 1 out.old)) }
{
    clear_at(BitSpan { at: 5, count: 1 }, out, 1);
    clear_at(BitSpan { at: 3, count: 4 }, out, 2);
    clear_directions(n, out);
}

// Clears the listed bits of a pending header. Asks that it is there.
pub(crate) fn clear_pending(out: &mut [u8], at: usize)
    requires { at < length out.old }
    ensures { out.new ≡ clear_at at 3 1 (clear_at at 7 1 out.old) }
{
    clear_at(BitSpan { at: 7, count: 1 }, out, at);
    clear_at(BitSpan { at: 3, count: 1 }, out, at);
}
