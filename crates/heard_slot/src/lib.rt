// A station's slot on a row that was read, by value: the two tests that need the whole row, then its step by the slot's outcome.

#![tactic(auto)]

ghost use Rattle.std.specs.Prelude.{◌≡◌};
ghost use Rattle.rules.specs.Hearing.{feedback_of};
ghost use Rattle.rules.specs.StationCalls.{heard_slot_of, refused_slot};
ghost use Rattle.heard_slot.specs.WholeRow.{WholeRow};

use minislot::RowReading;
use outcomes::outcome;
use own_hearing::hears_itself;
use rules::{SlotAnswer, Station, StationSlot};
use step_one::step_one;
use stepping::step;

// A refusal, which requests nothing and leaves the record as it was.
pub fn refused_slot(s: Station, number: u8) -> StationSlot
    ensures { result ≡ refused_slot s number }
{
    StationSlot {
        answer: SlotAnswer::Refused(number),
        request: 0,
        station: s,
    }
}

// A row that was heard, a pick in range. 7: a counter would pass its limit in step 1. 12: what the station must hear of itself is missing
// or foreign.
pub fn hear_row(s: Station, words: &[u16], row: RowReading, pick: u8) -> StationSlot
    requires { WholeRow s row }
    ensures { result ≡ heard_slot_of s words.now (feedback_of s.counters.minislots row) pick }
{
    let c = s.counters;
    let minislots = row.minislots;
    let one = step_one(c, row);
    let fits = one.fits;
    if !fits {
        return refused_slot(s, 7);
    }
    let own = hears_itself(s, words, minislots);
    if !own {
        return refused_slot(s, 12);
    }
    let o = outcome(c, row, one);
    step(s, o, pick)
}
