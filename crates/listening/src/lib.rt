// Listening by value: the counters that every station keeps, moved by one row that is heard.

#![tactic(auto)]

ghost use Rattle.std.specs.Prelude.{◌≡◌, true};
ghost use Rattle.rules.specs.Limits.{within_limits};
ghost use Rattle.rules.specs.Hearing.{feedback_of};
ghost use Rattle.rules.specs.Listening.{listening_of, listen_of, refused_listening};
ghost use Rattle.rules.specs.Recorded.{listening_at_of};
ghost use Rattle.rules.specs.Numbers.{listen_told};
ghost use Rattle.rules.specs.Answered.{listen_told_of, listen_at_told_of};

use calendars::coming;
use counter_limits::within;
use falling::fall;
use minislot::RowReading;
use row_at::read_row_at;
use row_reading::read_row;
use rules::{Counters, ListenAnswer, Listened};
use step_one::step_one;
use turns::turn;

fn refused(c: Counters, number: u8) -> Listened
    ensures { result ≡ refused_listening c number }
{
    Listened {
        answer: ListenAnswer::Refused(number),
        counters: c,
    }
}

// Steps 1 to 5 for a row that was heard. 7: a counter would pass its limit in step 1.
fn listen_row(c: Counters, row: RowReading) -> Listened
    requires { within_limits c ≡ true }
    ensures { result ≡ listen_of c (feedback_of c.minislots row) }
{
    let one = step_one(c, row);
    if !one.fits {
        return refused(c, 7);
    }
    Listened {
        answer: ListenAnswer::Went(turn(coming(c), one.after)),
        counters: fall(c, one.after),
    }
}

// Listens to a row. 18: the record is outside its limits. 6: the row has not m minislots. Then 1, 3 or 4 for the first bad minislot. 7: a
// counter would pass its limit in step 1. A refusal leaves the record as it was.
pub fn listen(c: Counters, words: &[u16], counts: &[u8]) -> Listened
    ensures { (result ≡ listening_of c words.now counts.now)
        × (listen_told result.answer ≡ listen_told_of c words.now counts.now) }
{
    if within(c) {
        let row = read_row(words, counts, c.minislots);
        if row.number != 0 {
            return refused(c, row.number);
        }
        return listen_row(c, row);
    }
    refused(c, 18)
}

// Listens to the row that begins at a place of a longer recording; the numbers are those of `listen`.
pub fn listen_at(c: Counters, words: &[u16], counts: &[u8], start: usize) -> Listened
    ensures value { result ≡ listening_at_of c start words.now counts.now }
    ensures told { listen_told result.answer ≡ listen_at_told_of c start words.now counts.now }
{
    if within(c) {
        let row = read_row_at(words, counts, start, c.minislots);
        if row.number != 0 {
            return refused(c, row.number);
        }
        return listen_row(c, row);
    }
    refused(c, 18)
}
