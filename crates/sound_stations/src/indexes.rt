// The indexes of a table are distinct.
ghost use Rattle.std.specs.Prelude.{◌≡◌};
ghost use Rattle.std.specs.List.{list_all};
ghost use Rattle.channel_rules.specs.Soundness.{other_index, indexes_distinct};

use rules::Station;

// Whether no other station has a station's index.
fn alone(station: &Station, others: &[Station]) -> bool
    ensures { result ≡ list_all (other_index station.now) others.now }
{
    others.iter().all(|s| station.index != s.index)
}

pub(crate) fn indexes_distinct(stations: &[Station]) -> bool
    ensures { result ≡ indexes_distinct stations.now }
{
    let mut rest = stations;
    while let Some((first, others)) = rest.split_first() {
        if !alone(first, others) {
            return false;
        }
        rest = others;
    }
    true
}
