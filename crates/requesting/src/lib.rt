// Step 3 for one message, and RQ's part of step 5. r is RQ of the slot's group g after step 1. Each function is equal to its rule of crate
// `rules`, for any condition.

#![tactic(auto)]

ghost use Rattle.std.specs.Prelude.{◌≡◌};
ghost use Rattle.rules.specs.Requesting.{requests as requests_of, requested, waits_in, total_of};
ghost use Rattle.rules.specs.Stepping.{request_minislot};

use rules::Condition;

// The whole slot count of a message, which a request carries.
pub fn total_of(k: Condition) -> u8
    ensures { result ≡ total_of k }
{
    match k {
        Condition::Free => 0,
        Condition::Urgent { .. } => 1,
        Condition::Fresh { total }
        | Condition::Asked { total, .. }
        | Condition::Resolving { total, .. }
        | Condition::Long { total, .. }
        | Condition::Held { total } => total,
    }
}

// Whether the places of group h move in a slot of group g.
fn waits_in(r: u32, g: u8, h: u8) -> bool
    ensures { result ≡ waits_in r g h }
{
    0 < r && h == g
}

// Whether a message requests.
#[tactic(auto, unfolding(rules::specs::Requesting::requests))]
pub fn requests(r: u32, g: u8, k: Condition) -> bool
    ensures { result ≡ requests_of r g k }
{
    match k {
        Condition::Fresh { .. } => r == 0,
        Condition::Resolving { group, place, .. } => waits_in(r, g, group) && place == 1,
        _ => false,
    }
}

// The minislot of a request, 0 for none.
pub fn request_minislot(requesting: bool, pick: u8) -> u8
    ensures { result ≡ request_minislot requesting pick }
{
    if requesting { pick } else { 0 }
}

// The condition after step 3: a message that requests is asked in its picked minislot, and the others of the resolution queue move down
// by 1.
#[tactic(auto, unfolding(rules::specs::Requesting::requested))]
pub fn request(r: u32, g: u8, pick: u8, k: Condition) -> Condition
    ensures { result ≡ requested r g pick k }
{
    match k {
        Condition::Fresh { total } if r == 0 => Condition::Asked {
            group: g,
            minislot: pick,
            total,
        },
        Condition::Resolving {
            group,
            place,
            total,
        } if waits_in(r, g, group) => if place == 1 {
            Condition::Asked {
                group: g,
                minislot: pick,
                total,
            }
        } else {
            Condition::Resolving {
                group,
                place: place.saturating_sub(1),
                total,
            }
        },
        _ => k,
    }
}
