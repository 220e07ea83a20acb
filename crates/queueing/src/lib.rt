// How a row's newcomers join the queues, one minislot after the other. Each function is equal to its rule of crate `rules`. What they
// require is checked by the calls above them.

#![tactic(auto)]

ghost use Rattle.std.specs.Prelude.{◌≡◌, min, eqb, take};
ghost use Rattle.rows.specs.Row.{feedback_in};
ghost use Rattle.rules.specs.Queueing.{queued, queued_single, queued_row};
ghost use Rattle.queueing.specs.Bounds.{Within, Grown};

use minislot::{Feedback, MinislotFeedback};
use rules::Places;

fn queue_single(success: bool, p: Places, count: u8) -> Places
    requires { Within 70000 p }
    ensures value { result ≡ queued_single success (eqb count 1) count p }
    ensures grown { Grown p result }
{
    if count == 1 {
        if success {
            return p;
        }
        return Places {
            urgent: p.urgent + 1,
            ..p
        };
    }
    Places {
        long: p.long + u32::from(count),
        ..p
    }
}

// One minislot of step 1.
pub fn queue(success: bool, p: Places, f: Feedback) -> Places
    requires { Within 70000 p }
    ensures value { result ≡ queued success p f }
    ensures grown { Grown p result }
{
    match f {
        Feedback::Empty => p,
        Feedback::Single(_, count) => queue_single(success, p, count),
        Feedback::Collide => Places {
            resolution: p.resolution + 1,
            ..p
        },
    }
}

// How many of m minislots a row holds.
pub fn held(m: u8) -> usize
    ensures { result ≡ min m 8 }
{
    usize::from(m).min(8)
}

// The first m minislots of a row, in order.
pub fn queue_row(success: bool, before: Places, row: [MinislotFeedback; 8], m: u8) -> Places
    requires { Within 65535 before }
    ensures { result ≡ queued_row success before (take m (feedback_in row)) }
{
    let mut p = before;
    for minislot in &row[..held(m)] {
        p = queue(success, p, minislot.feedback);
    }
    p
}
