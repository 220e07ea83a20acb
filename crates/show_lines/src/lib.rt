// The lines that `show` of `rehearse` prints of a channel, written into a buffer. A line that does not fit is not written at all.

#![tactic(auto)]

ghost use Rattle.std.specs.Prelude.{◌≡◌, take};
ghost use Rattle.programs.specs.Buffering.{put_lines, place_after_lines};
ghost use Rattle.show_lines.specs.ShowLines.{show_lines};

use counter_lines::{put_counters, put_groups, put_owners};
use message_lines::put_messages;
use rules::{Counters, Station, WireRow};
use wire_lines::put_wire;

// All lines of a channel whose stations have the counters c: of the first `count` stations, or of all 65 where there are no more.
pub fn put_show(
    out: &mut [u8],
    at: usize,
    call: u64,
    c: Counters,
    stations: [Station; 65],
    count: usize,
    wire: [WireRow; 8],
) -> usize
    ensures buffer { out.new ≡ put_lines out.old at (show_lines call c (take count stations) wire) }
    ensures reached { result ≡ place_after_lines out.old at (show_lines call c (take count stations) wire) }
{
    let first = put_counters(out, at, call, c);
    let second = put_owners(out, first, call, c);
    let third = put_groups(out, second, call, c);
    let fourth = put_messages(out, third, call, stations, count);
    put_wire(out, fourth, call, c.minislots, c.groups, wire)
}
