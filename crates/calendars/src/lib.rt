// The calendar that every record holds for streams (paper 02, T-02), by value: whether it is within its limits, the coming slot's entry, the
// next position, and a listener's or a station's record with other entries. Each function is equal to its rule of crate `rules`.

#![tactic(auto)]

ghost use Rattle.std.specs.Prelude.{◌≡◌, ◌≤◌, get_or};
ghost use Rattle.rules.specs.Calendars.{free_entry, calendar_within, position_after};
ghost use Rattle.rules.specs.Settings.{with_calendar, calendar_on};

use calendar_entries::{FREE, POSITIONS, entries_within, some_free};
use rules::{Counters, Station};

// The last position of a calendar.
const LAST_POSITION: u8 = 23;

// Whether calendar and position are within their limits.
#[tactic(auto, unfolding(rules::specs::Calendars::calendar_within))]
pub fn calendar_within(c: Counters) -> bool
    ensures { result ≡ calendar_within c }
{
    c.position <= LAST_POSITION && entries_within(c.calendar) && some_free(c.calendar)
}

// The entry of the coming slot; a position beyond the calendar is free.
pub fn coming(c: Counters) -> u16
    ensures { result ≡ get_or c.calendar c.position free_entry }
{
    let p = c.position as usize;
    if p < POSITIONS { c.calendar[p] } else { FREE }
}

// The position after one, the first after the last.
pub fn next_position(p: u8) -> u8
    requires { p ≤ 23 }
    ensures { result ≡ position_after p }
{
    if p == LAST_POSITION { 0 } else { p + 1 }
}

// The record with these entries, at its position.
pub fn with_calendar(c: Counters, entries: [u16; 24]) -> Counters
    ensures { result ≡ with_calendar entries c }
{
    Counters {
        calendar: entries,
        ..c
    }
}

// The station's record with these entries.
pub fn calendar_on(s: Station, entries: [u16; 24]) -> Station
    ensures { result ≡ calendar_on entries s }
{
    Station {
        counters: with_calendar(s.counters, entries),
        ..s
    }
}
