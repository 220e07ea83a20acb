// Step 1 for one message: where its minislot lands it. Each function is equal to its rule of crate `rules`, for any condition.

#![tactic(auto)]

ghost use Rattle.std.specs.Prelude.{◌≡◌, ◌-◌, get_or};
ghost use Rattle.rules.specs.Landing.{at, stands};
ghost use Rattle.rules.specs.Stepping.{settled_in};

use counters::place_of;
use rules::{Condition, Landed, Landing};

// A message of this many slots that lands there in a slot of group g.
fn stand(g: u8, landing: Landing, total: u8) -> Condition
    ensures { result ≡ stands g landing total }
{
    match landing {
        Landing::Gone => Condition::Free,
        Landing::ToUrgent { place } => Condition::Urgent { place },
        Landing::ToLong { first } => Condition::Long {
            first,
            left: total,
            total,
        },
        Landing::ToResolution { place } => Condition::Resolving {
            group: g,
            place,
            total,
        },
    }
}

// A message that asked in a minislot, by that minislot's landing.
fn stand_at(landed: [Landed; 8], g: u8, minislot: u8, total: u8) -> Condition
    ensures { result ≡ stands g (get_or landed (minislot - 1) (at Landing.Gone)).landing total }
{
    match landed.get(place_of(minislot)) {
        Some(l) => stand(g, l.landing, total),
        None => Condition::Free,
    }
}

// The condition after step 1 of a slot of group g: only a message that asked in that group moves.
#[tactic(auto, unfolding(rules::specs::Stepping::settled_in))]
pub fn settled_in(landed: [Landed; 8], g: u8, k: Condition) -> Condition
    ensures { result ≡ settled_in landed g k }
{
    match k {
        Condition::Asked {
            group,
            minislot,
            total,
        } if group == g => stand_at(landed, g, minislot, total),
        _ => k,
    }
}
