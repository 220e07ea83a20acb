// What a channel's slot reads before it is judged: its picks, and the next group's row of the wire.

#![tactic(auto)]

ghost use Rattle.std.specs.Prelude.{◌≡◌, ℕ, ◌-◌, get_or};
ghost use Rattle.std.specs.List.{list_all};
ghost use Rattle.channel_rules.specs.ChannelCalls.{blank_row};
ghost use Rattle.rules.specs.Limits.{between};
ghost use Rattle.wire_hearing.specs.GroupRead.{first_read, group_read};

use counters::place_of;
use minislot::{Minislot, RowReading};
use queueing::held;
use row_reading::read_row;
use rules::{Counters, WireRow};

// Whether every pick is one of m minislots.
pub fn picks_within(picks: &[u8], m: u8) -> bool
    ensures { result ≡ list_all (λ (pick : ℕ). between 1 pick m) picks.now }
{
    picks.iter().all(|pick| 1 <= *pick && *pick <= m)
}

// The first m minislots of a row, read.
fn read_wire_row(minislots: [Minislot; 8], m: u8) -> RowReading
    ensures { result ≡ first_read m minislots }
{
    let end = held(m);
    let mut words = [0u16; 8];
    let mut counts = [0u8; 8];
    // an array's `map` tells its calls and not its result
    for (j, x) in minislots.iter().enumerate() {
        words[j] = x.word;
        counts[j] = x.count;
    }
    read_row(&words[0..end], &counts[0..end], m)
}

// A group's row of the wire, a blank one beyond its eight.
pub fn row_at(wire: [WireRow; 8], group: u8) -> WireRow
    ensures { result ≡ get_or wire (group - 1) blank_row }
{
    let g = place_of(group);
    if g < 8 {
        return wire[g];
    }
    WireRow {
        minislots: [Minislot { word: 0, count: 0 }; 8],
    }
}

// The next group's row of the wire, read.
pub fn read_group(c: Counters, wire: [WireRow; 8]) -> RowReading
    ensures { result ≡ group_read c wire }
{
    read_wire_row(row_at(wire, c.next).minislots, c.minislots)
}
