// The number of a writing on a channel, in order of checking, on a copy of the table.

#![tactic(auto)]

ghost use Rattle.std.specs.Prelude.{◌≡◌};
ghost use Rattle.channel_rules.specs.ChannelCalls.{channel_write_number_of};
ghost use Rattle.calls.specs.ByValue.{array_channel};

use calls::has_stations;
use positions::position_of;
use rules::{Station, WireRow, Writing};
use soundness::sound;
use verdicts::judge;

// The number of a writing on the first n of the records, 0 where it goes through: 14, 18, 16, then 10 and 9 of an offer or a hold, 22 of
// a commit or a withdrawal.
pub fn write_number(
    stations: [Station; 64],
    n: usize,
    wire: [WireRow; 8],
    index: u16,
    w: Writing,
) -> u8
    ensures { result ≡ channel_write_number_of (array_channel stations n wire) index w }
{
    if !has_stations(n) {
        return 14;
    }
    if !sound(stations, n, wire) {
        return 18;
    }
    let k = position_of(stations, n, index);
    if n <= k {
        return 16;
    }
    judge(stations[k], w).number
}
