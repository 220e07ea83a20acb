// A row of minislots: its weight, and the answer where it is refused. What it reads as: specs/Row.

#![tactic(auto)]

ghost use Rattle.std.specs.Prelude.{◌≡◌, []};
ghost use Rattle.rows.specs.Row.{row_answer, weight, weight_of, feedback_in};

use minislot::{Feedback, MinislotFeedback, RowReading};

// What a minislot adds to its row's weight.
fn weight_of(feedback: Feedback) -> u8
    ensures { result ≡ weight_of feedback }
{
    match feedback {
        Feedback::Empty => 0,
        Feedback::Single(_, _) => 1,
        Feedback::Collide => 2,
    }
}

// The weight of a row: its Singles plus twice its Collides. The tally is a byte and no sum of it wraps: a row has at most 8 minislots and
// each adds at most 2, so that it never passes 16, which eight Collides reach (`weight-fits`). The places after a row's last minislot are
// Empty and add nothing.
pub fn weigh(minislots: [MinislotFeedback; 8]) -> u8
    ensures { result ≡ weight (feedback_in minislots) }
{
    let mut tally: u8 = 0;
    for minislot in &minislots {
        tally += weight_of(minislot.feedback);
    }
    tally
}

// A row that is refused: its number, and nothing heard.
pub fn refused(number: u8) -> RowReading
    ensures { result ≡ row_answer number [] }
{
    RowReading {
        number,
        weight: 0,
        minislots: [MinislotFeedback {
            feedback: Feedback::Empty,
        }; 8],
    }
}
