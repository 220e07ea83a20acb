// Who sends in the coming slots, of a channel that its caller holds by value (paper 02, T-07): the first records of its room are lent to
// the call, so that a caller needs no reference to records of its own. The list is lent by the caller.

#![tactic(auto)]

ghost use Rattle.std.specs.Prelude.{◌≡◌, ◌≤◌, length};
ghost use Rattle.coming_rules.specs.Coming.{coming_of, coming_told, coming_told_of};
ghost use Rattle.channel_coming.specs.Leaving.{leaves_coming};
ghost use Rattle.lent_channel.specs.Lent.{lent_of};
ghost use Rattle.local_channel.specs.Local.{lent_by};

use coming_rules::ComingAnswer;
use drawing::least;
use local_channel::LocalChannel;
use rules::{Station, WireRow};

fn coming_part(
    stations: [Station; 65],
    count: usize,
    wire: [WireRow; 8],
    list: &mut [u16],
) -> ComingAnswer
    requires { count ≤ 65 }
    ensures { leaves_coming list.new result ≡ coming_of (lent_of stations count wire) list.old }
{
    channel_coming::coming(&stations[..count], wire, list)
}

// Who sends data in each of the coming slots, by `channel_coming::coming` on the first `count` records, or on all 65 where there are
// no more.
pub fn coming(c: LocalChannel, list: &mut [u16]) -> ComingAnswer
    ensures { (leaves_coming list.new result ≡ coming_of (lent_by c) list.old)
        × (coming_told result ≡ coming_told_of (lent_by c) (length list.old)) }
{
    let room = c.stations;
    let wire = c.wire;
    coming_part(room, least(c.count, 65), wire, list)
}
