// Setting the calendar of a station by value.

#![tactic(auto)]

ghost use Rattle.std.specs.Prelude.{◌≡◌};
ghost use Rattle.rules.specs.Settings.{station_calendar_of, refused_setting};
ghost use Rattle.rules.specs.Numbers.{calendar_told};
ghost use Rattle.rules.specs.Answered.{station_calendar_told_of};

use calendar_entries::entries_number;
use calendars::calendar_on;
use conditions::within;
use rules::{CalendarAnswer, Station, StationSet};

fn refused_calendar(s: Station, number: u8) -> StationSet
    ensures { result ≡ refused_setting s number }
{
    StationSet {
        answer: CalendarAnswer::Refused(number),
        station: s,
    }
}

// Sets a station's calendar, and leaves its position. 18: the record is outside its limits. 20: an entry is neither free (65,535) nor an
// index of 923 at most. 21: no entry is free. A refusal leaves the record as it was.
pub fn set_calendar(s: Station, entries: [u16; 24]) -> StationSet
    ensures left { result ≡ station_calendar_of s entries }
    ensures told { calendar_told result.answer ≡ station_calendar_told_of s entries }
{
    if !within(s) {
        return refused_calendar(s, 18);
    }
    let number = entries_number(entries);
    if number != 0 {
        return refused_calendar(s, number);
    }
    StationSet {
        answer: CalendarAnswer::Set,
        station: calendar_on(s, entries),
    }
}
