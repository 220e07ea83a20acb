// The station (paper: box), by value: its start.

#![tactic(auto)]

ghost use Rattle.std.specs.Prelude.{◌≡◌};
ghost use Rattle.rules.specs.StationCalls.{station_start_of, refused_start};
ghost use Rattle.rules.specs.Numbers.{start_told};
ghost use Rattle.rules.specs.Answered.{station_start_told_of};

use conditions::{is_index, no_station};
use counters::in_ranges;
use rules::{StartAnswer, Station, StationStarted};

fn refused_start(number: u8) -> StationStarted
    ensures { result ≡ refused_start number }
{
    StationStarted {
        answer: StartAnswer::Refused(number),
        station: no_station(),
    }
}

// Starts a station. 5: m or n outside its range. 8: the index is above 923.
pub fn start(m: u8, n: u8, index: u16) -> StationStarted
    ensures left { result ≡ station_start_of m n index }
    ensures told { start_told result.answer ≡ station_start_told_of m n index }
{
    if !in_ranges(m, n) {
        return refused_start(5);
    }
    if !is_index(index) {
        return refused_start(8);
    }
    StationStarted {
        answer: StartAnswer::Ready,
        station: Station {
            counters: counters::start(m, n),
            index,
            ..no_station()
        },
    }
}
