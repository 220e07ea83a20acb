// A station's slot on a row that is a stretch from the middle of a longer recording.

#![tactic(auto)]

ghost use Rattle.std.specs.Prelude.{◌≡◌, ◌&&◌, ◌+◌, leb};
ghost use Rattle.rules.specs.Recorded.{slot_at_of};
ghost use Rattle.rules.specs.Numbers.{slot_told};
ghost use Rattle.rules.specs.Answered.{slot_at_told_of};

use conditions::within;
use heard_slot::refused_slot;
use rules::{Station, StationSlot};
use station_slot::slot;

// Whether a recording of this many words and counts has m minislots from a place on.
fn has_stretch(words: usize, counts: usize, start: usize, m: usize) -> bool
    ensures { result ≡ leb (start + m) words && leb (start + m) counts }
{
    if words < start {
        return false;
    }
    if counts < start {
        return false;
    }
    if words - start < m {
        return false;
    }
    m <= counts - start
}

// A station's slot on the row that begins at a place of a longer recording; the numbers are those of `slot`, 6 where the recording has not
// m minislots from there.
pub fn slot_at(s: Station, words: &[u16], counts: &[u8], start: usize, pick: u8) -> StationSlot
    ensures left { result ≡ slot_at_of s start words.now counts.now pick }
    ensures told { slot_told result.answer ≡ slot_at_told_of s start words.now counts.now pick }
{
    let m = s.counters.minislots as usize;
    if has_stretch(words.len(), counts.len(), start, m) {
        let end = start + m;
        return slot(s, &words[start..end], &counts[start..end], pick);
    }
    if within(s) {
        return refused_slot(s, 6);
    }
    refused_slot(s, 18)
}
