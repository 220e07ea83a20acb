// The table of stations by value, for what needs all stations together. What a lent table is by value, and what it holds once one is written
// back: specs/Loading.

#![tactic(auto)]

ghost use Rattle.std.specs.Prelude.{◌≡◌, get_or};
ghost use Rattle.rules.specs.StationCalls.{no_station};
ghost use Rattle.table.specs.Loading.{of, copies_of, blank_stations};

use conditions::no_station;
use drawing::least;
use rules::Station;

// The lent table by value: its first 64 records, and how many it has.
#[derive(Clone, Copy)]
pub struct Loaded {
    pub stations: [Station; 64],
    pub count: usize,
}

// How many records of a table of n are copied from or to one of m: no more than either has, nor than 64.
pub fn copies(n: usize, m: usize) -> usize
    ensures { result ≡ copies_of n m }
{
    least(least(n, m), 64)
}

// Records that stand for no station.
pub fn blanks() -> [Station; 64]
    ensures { result ≡ blank_stations }
{
    [no_station(); 64]
}

pub fn hold(stations: [Station; 64], count: usize) -> Loaded
    ensures { result ≡ of stations count }
{
    Loaded { stations, count }
}

// Station i of a table, and no station beyond its 64 records.
pub fn get(d: Loaded, i: usize) -> Station
    ensures { result ≡ get_or d.stations i no_station }
{
    if i < 64 { d.stations[i] } else { no_station() }
}
