// The number of asking who sends in the coming slots (paper 02, T-07), in order of checking, on a copy of the table.

#![tactic(auto)]

ghost use Rattle.std.specs.Prelude.{◌≡◌};
ghost use Rattle.rules.specs.Limits.{between};
ghost use Rattle.calls.specs.ByValue.{array_channel};
ghost use Rattle.coming_rules.specs.Coming.{coming_number_of};

use calls::has_stations;
use rules::{Station, WireRow};
use soundness::sound;

// The most slots that a list can ask for.
const MOST_SLOTS: usize = 1024;

// Whether a list can have w entries.
fn has_slots(w: usize) -> bool
    ensures { result ≡ between 1 w 1024 }
{
    if w < 1 {
        return false;
    }
    w <= MOST_SLOTS
}

// The number of asking for w slots on the first n of the records, 0 where it goes through: 14, 18, 23.
pub fn coming_number(stations: [Station; 64], n: usize, wire: [WireRow; 8], w: usize) -> u8
    ensures { result ≡ coming_number_of (array_channel stations n wire) w }
{
    if !has_stations(n) {
        return 14;
    }
    if !sound(stations, n, wire) {
        return 18;
    }
    if !has_slots(w) {
        return 23;
    }
    0
}
