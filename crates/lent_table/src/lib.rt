// The table of stations that a caller lends: copied by value, for what needs all stations together, and written back.

#![tactic(auto)]

ghost use Rattle.std.specs.Prelude.{◌≡◌};
ghost use Rattle.table.specs.Loading.{load_of, store_of};

use rules::Station;
use table::{Loaded, blanks, copies, get, hold};

// The lent table by value.
pub fn load(table: &[Station]) -> Loaded
    ensures { result ≡ load_of table.now }
{
    let n = table.len();
    let end = copies(n, 64);
    let mut stations = blanks();
    let mut i = 0;
    while i < end {
        stations[i] = table[i];
        i += 1;
    }
    hold(stations, n)
}

// The records of a table by value are written over the lent ones, as far as both go.
pub fn store(table: &mut [Station], d: Loaded)
    ensures { table.new ≡ store_of table.old d }
{
    let n = copies(table.len(), d.count);
    let mut i = 0;
    while i < n {
        table[i] = get(d, i);
        i += 1;
    }
}
