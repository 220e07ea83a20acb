// The clauses of a sound table (paper 01, "The channel") on its stations alone, as code: counters shared, every station within its limits,
// and indexes distinct.

#![tactic(auto)]

mod indexes;
mod records;

ghost use Rattle.std.specs.Prelude.{◌≡◌};
ghost use Rattle.sound_stations.specs.Stations.{stations_sound};

use indexes::indexes_distinct;
use records::records_within;
use rules::Station;
use sound_counters::counters_shared;

// The clauses. That counters are shared comes first, so that their limits are tested once.
#[tactic(auto, using(crate::proofs::Sharing::in_order))]
pub fn stations_sound(stations: &[Station]) -> bool
    ensures { result ≡ stations_sound stations.now }
{
    counters_shared(stations) && records_within(stations) && indexes_distinct(stations)
}
