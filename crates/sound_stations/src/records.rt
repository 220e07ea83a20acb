// Every station is within its limits, on a table whose stations share their counters: the counters' own limits are tested once, then each
// station's index and its two message records.
ghost use Rattle.std.specs.Prelude.{◌≡◌, true};
ghost use Rattle.std.specs.List.{list_all};
ghost use Rattle.channel_rules.specs.Soundness.{records_within, counters_shared};
ghost use Rattle.sound_stations.specs.Stations.{beside_within};

use conditions::{is_index, messages_within};
use rules::{Counters, Station};

// A station's index and its two message records, under these counters.
#[tactic(auto, unfolding(crate::specs::Stations::beside_within))]
fn beside_within(shared: &Counters, s: &Station) -> bool
    ensures { result ≡ beside_within shared.now s.now }
{
    is_index(s.index) && messages_within(*shared, s.short.condition, s.long.condition)
}

// Those of each station.
fn besides_within(shared: &Counters, stations: &[Station]) -> bool
    ensures { result ≡ list_all (beside_within shared.now) stations.now }
{
    stations.iter().all(|s| beside_within(shared, s))
}

pub(crate) fn records_within(stations: &[Station]) -> bool
    requires { counters_shared stations.now ≡ true }
    ensures { result ≡ records_within stations.now }
{
    match stations.first() {
        Some(first) => {
            counter_limits::within(first.counters) && besides_within(&first.counters, stations)
        }
        None => true,
    }
}
