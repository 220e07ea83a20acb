// The header that `follow` prints before its lines, written into a buffer. What does not fit is not written at all.

#![tactic(auto)]

ghost use Rattle.std.specs.Prelude.{◌≡◌};
ghost use Rattle.decimals.specs.Putting.{put_at, place_after};
ghost use Rattle.lines.specs.Lines.{header_of};

use decimals::{has_room, write_bytes};

// The header line, at place at if it fits there; gives the place after it, or at.
pub fn put_header(out: &mut [u8], at: usize) -> usize
    ensures buffer { out.new ≡ put_at out.old at header_of }
    ensures reached { result ≡ place_after out.old at header_of }
{
    if has_room(out.len(), at, 24) {
        return write_bytes(out, at, b"slot,group,turn,H,N,RQ\r\n");
    }
    at
}
