// Where the station of an index stands in a table.

#![tactic(auto)]

ghost use Rattle.std.specs.Prelude.{◌≡◌, eqb, position, take};
ghost use Rattle.channel_rules.specs.Soundness.{position_of};

use drawing::least;
use rules::Station;

// The place of the first station of an index.
fn first_of(stations: &[Station], index: u16) -> Option<usize>
    ensures { result ≡ position (λ s. eqb s.index index) stations.now }
{
    stations.iter().position(|s| s.index == index)
}

// How many stations stand before it; all of them if there is none.
fn stands_at(stations: &[Station], index: u16) -> usize
    ensures { result ≡ position_of index stations.now }
{
    match first_of(stations, index) {
        Some(i) => i,
        None => stations.len(),
    }
}

// How many of the first n stations stand before the first of an index; all of them if there is none.
pub fn position_of(stations: [Station; 64], n: usize, index: u16) -> usize
    ensures { result ≡ position_of index (take n stations) }
{
    stands_at(&stations[..least(n, 64)], index)
}
