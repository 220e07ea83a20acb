// A clause of a sound table (paper 02, T-02) as code: every owner of a calendar's position is the index of a station of the table.

#![tactic(auto)]

ghost use Rattle.std.specs.Prelude.{◌≡◌, take};
ghost use Rattle.std.specs.List.{list_all};
ghost use Rattle.channel_rules.specs.Soundness.{entries_on};
ghost use Rattle.sound_owners.specs.Owners.{has_index, entry_among};

use calendar_entries::FREE;
use drawing::least;
use rules::Station;

// Whether one of these stations has an index.
fn has_index(stations: &[Station], x: u16) -> bool
    ensures { result ≡ has_index stations.now x }
{
    stations.iter().any(|s| s.index == x)
}

// Whether an entry is free or the index of one of these stations.
fn entry_among(stations: &[Station], x: u16) -> bool
    ensures { result ≡ entry_among stations.now x }
{
    x == FREE || has_index(stations, x)
}

// Whether each entry is.
fn entries_among(stations: &[Station], entries: &[u16]) -> bool
    ensures { result ≡ list_all (entry_among stations.now) entries.now }
{
    entries.iter().all(|x| entry_among(stations, *x))
}

// Whether each entry is free or the index of one of the first `count` stations, or of all 64 where there are no more.
pub fn entries_on(stations: [Station; 64], count: usize, entries: [u16; 24]) -> bool
    ensures { result ≡ entries_on (take count stations) entries }
{
    let n = least(count, 64);
    entries_among(&stations[..n], &entries)
}
