// Where each minislot of a row that was read lands a newcomer: gone, or a place at the end of a queue. Each function is equal to its rule
// of crate `rules`. What they require is checked by the calls above them.

#![tactic(auto)]

ghost use Rattle.std.specs.Prelude.{◌≡◌, eqb, take};
ghost use Rattle.rows.specs.Row.{feedback_in};
ghost use Rattle.rules.specs.Landing.{lands_alone, lands_after, landings as landings_of};
ghost use Rattle.newcomers.specs.Landable.{SingleFits, MinislotFits, RowFits};

use minislot::{Feedback, MinislotFeedback};
use queueing::{held, queue};
use rules::{Landed, Landing, Places};

// A Single, by its count; `before` is the lengths before its minislot.
fn land_alone(success: bool, before: Places, count: u8) -> Landing
    requires { SingleFits success before count }
    ensures { result ≡ lands_alone success (eqb count 1) before }
{
    if count == 1 {
        if success {
            return Landing::Gone;
        }
        return Landing::ToUrgent {
            place: (before.urgent + 1) as u16,
        };
    }
    Landing::ToLong {
        first: (before.long + 1) as u16,
    }
}

// What is heard in a minislot.
fn land(success: bool, before: Places, f: Feedback) -> Landing
    requires { MinislotFits success before f }
    ensures { result ≡ lands_after success before f }
{
    match f {
        Feedback::Empty => Landing::Gone,
        Feedback::Single(_, count) => land_alone(success, before, count),
        Feedback::Collide => Landing::ToResolution {
            place: (before.resolution + 1) as u16,
        },
    }
}

// The first m minislots of a row; `before` is the lengths before the row.
pub fn landings(success: bool, before: Places, row: [MinislotFeedback; 8], m: u8) -> [Landed; 8]
    requires { RowFits success before (take m (feedback_in row)) }
    ensures { result ≡ landings_of success before (take m (feedback_in row)) 8 }
{
    let n = held(m);
    let mut landed = [Landed {
        landing: Landing::Gone,
    }; 8];
    let mut p = before;
    for j in 0..n {
        let f = row[j].feedback;
        let landing = land(success, p, f);
        landed[j] = Landed { landing };
        p = queue(success, p, f);
    }
    landed
}
