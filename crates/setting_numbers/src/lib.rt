// The number of setting a channel's calendar, in order of checking, on a copy of the table.

#![tactic(auto)]

ghost use Rattle.std.specs.Prelude.{◌≡◌};
ghost use Rattle.channel_rules.specs.ChannelCalls.{channel_calendar_number_of};
ghost use Rattle.calls.specs.ByValue.{array_channel};

use calendar_entries::some_free;
use calls::has_stations;
use rules::{Station, WireRow};
use sound_owners::entries_on;
use soundness::sound;

// The number of a calendar on the first n of the records, 0 where it goes through: 14, 18, 20, 21.
pub fn calendar_number(
    stations: [Station; 64],
    n: usize,
    wire: [WireRow; 8],
    entries: [u16; 24],
) -> u8
    ensures { result ≡ channel_calendar_number_of (array_channel stations n wire) entries }
{
    if !has_stations(n) {
        return 14;
    }
    if !sound(stations, n, wire) {
        return 18;
    }
    if !entries_on(stations, n, entries) {
        return 20;
    }
    if some_free(entries) { 0 } else { 21 }
}
