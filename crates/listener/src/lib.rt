// The listener: its record at the start, and with another calendar.

#![tactic(auto)]

ghost use Rattle.std.specs.Prelude.{◌≡◌};
ghost use Rattle.rules.specs.Starting.{start_of, refused_listener};
ghost use Rattle.rules.specs.Settings.{calendar_of, refused_calendar};
ghost use Rattle.rules.specs.Numbers.{start_told, calendar_told};
ghost use Rattle.rules.specs.Answered.{start_told_of, calendar_told_of};

use calendar_entries::entries_number;
use calendars::with_calendar;
use counter_limits::within;
use counters::in_ranges;
use rules::{CalendarAnswer, CalendarSet, Counters, StartAnswer, Started};

fn refused_start() -> Started
    ensures { result ≡ refused_listener 5 }
{
    Started {
        answer: StartAnswer::Refused(5),
        counters: counters::none(),
    }
}

// Starts a listener. 5: m or n outside its range.
pub fn start(m: u8, n: u8) -> Started
    ensures value { result ≡ start_of m n }
    ensures told { start_told result.answer ≡ start_told_of m n }
{
    if in_ranges(m, n) {
        return Started {
            answer: StartAnswer::Ready,
            counters: counters::start(m, n),
        };
    }
    refused_start()
}

fn refused_calendar(c: Counters, number: u8) -> CalendarSet
    ensures { result ≡ refused_calendar c number }
{
    CalendarSet {
        answer: CalendarAnswer::Refused(number),
        counters: c,
    }
}

// Sets a listener's calendar, and leaves its position. 18: the record is outside its limits. 20: an entry is neither free (65,535) nor an
// index of 923 at most. 21: no entry is free. A refusal leaves the record as it was.
pub fn set_calendar(c: Counters, entries: [u16; 24]) -> CalendarSet
    ensures left { result ≡ calendar_of c entries }
    ensures told { calendar_told result.answer ≡ calendar_told_of c entries }
{
    if within(c) {
        let number = entries_number(entries);
        if number != 0 {
            return refused_calendar(c, number);
        }
        return CalendarSet {
            answer: CalendarAnswer::Set,
            counters: with_calendar(c, entries),
        };
    }
    refused_calendar(c, 18)
}
