// The outcome of a slot: what all stations with the same counters have in common, worked out once from the counters and a row that was
// read, for a station and for a channel alike.

#![tactic(auto)]

ghost use Rattle.std.specs.Prelude.{◌≡◌, ◌≤◌, take};
ghost use Rattle.rows.specs.Row.{feedback_in};
ghost use Rattle.rules.specs.Hearing.{feedback_of};
ghost use Rattle.rules.specs.Outcome.{success_in, successes, outcome_of};
ghost use Rattle.outcomes.specs.Countable.{Countable};

use calendars::coming;
use falling::fall;
use minislot::{Feedback, MinislotFeedback, RowReading};
use newcomers::landings;
use queueing::held;
use rules::{Counters, Outcome, StepOne};
use turns::turn;

// Whether a minislot's data, sent on an open turn, was immediate success.
fn success_in(success: bool, f: Feedback) -> u8
    ensures value { result ≡ success_in success f }
    ensures one { result ≤ 1 }
{
    match f {
        Feedback::Single(_, count) if success && count == 1 => 1,
        _ => 0,
    }
}

// The slots delivered by the row heard: its first m minislots.
fn successes_in(success: bool, row: [MinislotFeedback; 8], m: u8) -> u8
    ensures { result ≡ successes success (take m (feedback_in row)) }
{
    let mut total: u8 = 0;
    for minislot in &row[..held(m)] {
        total += success_in(success, minislot.feedback);
    }
    total
}

// The outcome of a slot whose lengths after step 1 fit.
pub fn outcome(c: Counters, row: RowReading, one: StepOne) -> Outcome
    requires { Countable c row one }
    ensures { result ≡ outcome_of c (feedback_of c.minislots row) }
{
    Outcome {
        group: c.next,
        turn: turn(coming(c), one.after),
        resolution: one.after.resolution,
        landed: landings(one.success, one.before, row.minislots, c.minislots),
        counters: fall(c, one.after),
        delivered: successes_in(one.success, row.minislots, c.minislots),
    }
}
