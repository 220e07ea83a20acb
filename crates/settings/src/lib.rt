// Setting a channel's calendar: what it comes to, by its number, on a copy of the table.

#![tactic(auto)]

ghost use Rattle.std.specs.Prelude.{◌≡◌, map};
ghost use Rattle.rules.specs.Settings.{calendar_on};
ghost use Rattle.settings.specs.Setting.{set_of, setting_of};

use calendars::calendar_on;
use calls::{CallReply, Decided, decline};
use rules::{Answer, Station, WireRow};
use setting_numbers::calendar_number;
use table::{Loaded, hold};

// Every record with these entries.
fn calendars_on(stations: [Station; 64], entries: [u16; 24]) -> [Station; 64]
    ensures { result ≡ map (calendar_on entries) stations }
{
    let mut after = stations;
    // an array's `map` tells its calls and not its result
    for (i, s) in stations.iter().enumerate() {
        after[i] = calendar_on(*s, entries);
    }
    after
}

// A calendar that goes through, on the first n of the records.
fn set(stations: [Station; 64], n: usize, wire: [WireRow; 8], entries: [u16; 24]) -> Decided
    ensures { result ≡ set_of stations n wire entries }
{
    Decided {
        loaded: hold(calendars_on(stations, entries), n),
        reply: CallReply {
            answer: Answer::Set,
            wire,
        },
    }
}

// A calendar on the first n of the records.
#[tactic(auto, unfolding(crate::specs::Setting::setting_of))]
pub fn calendar(
    stations: [Station; 64],
    n: usize,
    wire: [WireRow; 8],
    entries: [u16; 24],
) -> Decided
    ensures { result ≡ setting_of stations n wire entries }
{
    let number = calendar_number(stations, n, wire, entries);
    if number != 0 {
        return decline(wire, number);
    }
    set(stations, n, wire, entries)
}

// The same on a table that was loaded.
pub fn place_calendar(d: Loaded, wire: [WireRow; 8], entries: [u16; 24]) -> Decided
    ensures { result ≡ setting_of d.stations d.count wire entries }
{
    calendar(d.stations, d.count, wire, entries)
}
