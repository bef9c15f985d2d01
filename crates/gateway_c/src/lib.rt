// The gateway's four entries under their names for C, a static library's exports: each calls the function of that name
// in `gateway`, and promises what that promises. C passes a slice as a pointer and a length.
#![tactic(auto)]

ghost use Rattle.std.specs.Prelude.{◌≡◌, length};
ghost use Rattle.octets.specs.{Buffer.after, Outcome.code_of};
ghost use Rattle.header_bytes.specs.{Reading.measured, Rewriting.rewrite_header, Cleared.header_cleared};
ghost use Rattle.beacon.specs.Beacon.{read_beacon};
ghost use Rattle.beacon_facts.specs.Cleared.{beacon_cleared};
ghost use Rattle.gateway.specs.{Rewrite.rewrite_beacon};

// Reads the header at the beginning of a frame.
#[unsafe(no_mangle)]
pub extern "C" fn knobtangle_read_header(frame: &[u8]) -> usize
    ensures { result ≡ code_of (measured frame.now) }
{
    gateway::knobtangle_read_header(frame)
}

// Reads the beacon at the beginning of a beacon frame's content, which begins where its header ends.
#[unsafe(no_mangle)]
pub extern "C" fn knobtangle_read_beacon(content: &[u8]) -> usize
    ensures { result ≡ code_of (read_beacon content.now 0).outcome }
{
    gateway::knobtangle_read_beacon(content)
}

// Rewrites a header: its bytes with the listed bits cleared, and what lay behind them in out; refused, out keeps every
// byte.
#[unsafe(no_mangle)]
pub extern "C" fn knobtangle_rewrite_header(frame: &[u8], out: &mut [u8]) -> usize
    ensures value { result ≡ code_of (rewrite_header frame.now (length out.old)) }
    ensures out_after { out.new ≡
        after (rewrite_header frame.now (length out.old))
        out.old 0 (header_cleared frame.now) }
{
    gateway::knobtangle_rewrite_header(frame, out)
}

// Rewrites a beacon: its bytes with the listed bits cleared, and what lay behind them in out; refused, out keeps every
// byte.
#[unsafe(no_mangle)]
pub extern "C" fn knobtangle_rewrite_beacon(content: &[u8], out: &mut [u8]) -> usize
    ensures value { result ≡ code_of (rewrite_beacon content.now (length out.old)) }
    ensures out_after { out.new ≡
        after (rewrite_beacon content.now (length out.old))
        out.old 0 (beacon_cleared content.now 0) }
{
    gateway::knobtangle_rewrite_beacon(content, out)
}
