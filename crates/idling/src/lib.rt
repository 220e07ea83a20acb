// A message that a slot passes by: it stays as it is, asks nothing and sends nothing. Most messages of a slot are such, and are told by one
// test.

#![tactic(auto)]

ghost use Rattle.std.specs.Prelude.{◌≡◌};
ghost use Rattle.rules.specs.Stepping.{stays};
ghost use Rattle.idling.specs.Idling.{idle_in};

use rules::{Acted, Condition, Turn};

// Whether a slot of group g, with this turn and with r for the group's RQ after step 1, passes a message by.
#[tactic(auto, unfolding(crate::specs::Idling::idle_in))]
pub fn idle(t: Turn, r: u32, g: u8, k: Condition) -> bool
    ensures { result ≡ idle_in t r g k }
{
    match k {
        Condition::Free | Condition::Held { .. } => true,
        Condition::Fresh { .. } => r != 0,
        Condition::Asked { group, .. } => group != g,
        Condition::Resolving { group, .. } => group != g || r == 0,
        Condition::Urgent { .. } => !matches!(t, Turn::Urgent),
        Condition::Long { .. } => !matches!(t, Turn::Long),
    }
}

// What such a message does.
pub fn stay(k: Condition) -> Acted
    ensures { result ≡ stays k }
{
    Acted {
        condition: k,
        minislot: 0,
        segment: 0,
    }
}
