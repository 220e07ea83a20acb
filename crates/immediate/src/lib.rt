// Immediate success (step 1 of the counters): a group's Open mark, and the test of its row. Each function is equal to its rule of crate
// `rules`.

#![tactic(auto)]

ghost use Rattle.std.specs.Prelude.{◌≡◌, take};
ghost use Rattle.rows.specs.Row.{feedback_in};
ghost use Rattle.rules.specs.Queueing.{opened_of, immediate};

use counters::place_of;
use minislot::MinislotFeedback;
use queueing::queue_row;
use rules::{Counters, Places};

// The next group's Open mark, false beyond the eight.
pub fn opened_of(c: Counters) -> bool
    ensures { result ≡ opened_of c }
{
    let g = place_of(c.next);
    if g < 8 { c.opened[g] } else { false }
}

// Whether success is immediate, from the mark and the first m minislots of the row. What they bring is counted apart, as if all of it were
// queued: no Collide, and exactly one Single of count 1.
pub fn immediate_success(opened: bool, row: [MinislotFeedback; 8], m: u8) -> bool
    ensures { result ≡ immediate opened (take m (feedback_in row)) }
{
    if !opened {
        return false;
    }
    let brought = queue_row(
        false,
        Places {
            urgent: 0,
            long: 0,
            resolution: 0,
        },
        row,
        m,
    );
    brought.resolution == 0 && brought.urgent == 1
}
