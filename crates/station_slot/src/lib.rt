// A station's slot, by value: the tests in their order, then what the row that was heard leads to.

#![tactic(auto)]

ghost use Rattle.std.specs.Prelude.{◌≡◌, true};
ghost use Rattle.rules.specs.StationLimits.{station_within};
ghost use Rattle.rules.specs.StationCalls.{slot_of};
ghost use Rattle.rules.specs.Numbers.{slot_told};
ghost use Rattle.rules.specs.Answered.{slot_told_of};

use conditions::within;
use heard_slot::{hear_row, refused_slot};
use row_reading::read_row;
use rules::{Station, StationSlot};

// A station within its limits. 6: the row has not m minislots. 11: the pick is outside 1 to m. Then 1, 3 or 4 for the first bad minislot,
// 7 and 12.
fn hear(s: Station, words: &[u16], counts: &[u8], pick: u8) -> StationSlot
    requires { station_within s ≡ true }
    ensures { result ≡ slot_of s words.now counts.now pick }
{
    let m = s.counters.minislots;
    let row = read_row(words, counts, m);
    let number = row.number;
    if number == 6 {
        return refused_slot(s, number);
    }
    if pick < 1 {
        return refused_slot(s, 11);
    }
    if m < pick {
        return refused_slot(s, 11);
    }
    if number == 0 {
        return hear_row(s, words, row, pick);
    }
    refused_slot(s, number)
}

// A station's slot. 18: the record is outside its limits. 6: the row has not m minislots. 11: the pick is outside 1 to m. Then 1, 3 or 4
// for the first bad minislot. 7: a counter would pass its limit in step 1. 12: what the station must hear of itself is missing or foreign.
// A refusal leaves the record as it was.
pub fn slot(s: Station, words: &[u16], counts: &[u8], pick: u8) -> StationSlot
    ensures left { result ≡ slot_of s words.now counts.now pick }
    ensures told { slot_told result.answer ≡ slot_told_of s words.now counts.now pick }
{
    if within(s) {
        return hear(s, words, counts, pick);
    }
    refused_slot(s, 18)
}
