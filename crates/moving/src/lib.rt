// The transmission queues' part of step 5 for one message: places in a queue that fell move down by 1. Each function is equal to its rule
// of crate `rules`, for any condition.

#![tactic(auto)]

ghost use Rattle.std.specs.Prelude.{◌≡◌};
ghost use Rattle.rules.specs.Serving.{moved, urgent_moves, long_moves};

use rules::{Condition, Turn};

fn urgent_moves(k: Condition) -> Condition
    ensures { result ≡ urgent_moves k }
{
    match k {
        Condition::Urgent { place: 1 } => Condition::Free,
        Condition::Urgent { place } => Condition::Urgent {
            place: place.saturating_sub(1),
        },
        _ => k,
    }
}

// A stretch: the one that sent keeps place 1 with one slot fewer, and is done after its last; the others move down by 1.
fn long_moves(k: Condition) -> Condition
    ensures { result ≡ long_moves k }
{
    match k {
        Condition::Long {
            first: 1,
            left: 1,
            ..
        } => Condition::Free,
        Condition::Long {
            first: 1,
            left,
            total,
        } => Condition::Long {
            first: 1,
            left: left.saturating_sub(1),
            total,
        },
        Condition::Long { first, left, total } => Condition::Long {
            first: first.saturating_sub(1),
            left,
            total,
        },
        _ => k,
    }
}

// The condition after the slot, by its turn.
#[tactic(auto, unfolding(rules::specs::Serving::moved))]
pub fn moves(t: Turn, k: Condition) -> Condition
    ensures { result ≡ moved t k }
{
    match t {
        Turn::Urgent => urgent_moves(k),
        Turn::Long => long_moves(k),
        _ => k,
    }
}
