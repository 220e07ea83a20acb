// A clause of a sound table (paper 01, "The channel"; paper 02, T-02) as code: all stations share m, n, next group, counters, Open marks,
// calendar and position. And the counters of a table, those of its first station.

#![tactic(auto)]

ghost use Rattle.std.specs.Prelude.{◌≡◌, take};
ghost use Rattle.std.specs.List.{list_all};
ghost use Rattle.channel_rules.specs.Soundness.{table_counters, same_counters, counters_shared};

use conditions::no_station;
use rules::{Counters, Station};
use same_counters::same_counters;

// The counters of a table: those of its first station, and those that stand for none where it has no station.
pub fn table_counters(stations: [Station; 64], count: usize) -> Counters
    ensures { result ≡ table_counters (take count stations) }
{
    if count == 0 {
        no_station().counters
    } else {
        stations[0].counters
    }
}

// Whether every station has these counters.
fn all_have(shared: &Counters, stations: &[Station]) -> bool
    ensures { result ≡ list_all (λ s. same_counters shared.now s.counters) stations.now }
{
    stations.iter().all(|s| same_counters(shared, &s.counters))
}

// The clause.
pub fn counters_shared(stations: &[Station]) -> bool
    ensures { result ≡ counters_shared stations.now }
{
    match stations.first() {
        Some(first) => all_have(&first.counters, stations),
        None => true,
    }
}
