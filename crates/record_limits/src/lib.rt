// What the limits of a station say of each of its two message records (paper 02, T-04): which messages it can hold. Each test is equal to its
// rule of crate `rules`.

#![tactic(auto)]

ghost use Rattle.std.specs.Prelude.{◌≡◌};
ghost use Rattle.rules.specs.StationLimits.{short_within, long_within};

use rules::Condition;

// Whether the short record can hold a message: its total is 1, and it is never long.
#[tactic(auto, unfolding(rules::specs::StationLimits::short_within))]
pub fn short_within(k: Condition) -> bool
    ensures { result ≡ short_within k }
{
    match k {
        Condition::Free | Condition::Urgent { .. } => true,
        Condition::Long { .. } => false,
        Condition::Fresh { total }
        | Condition::Asked { total, .. }
        | Condition::Resolving { total, .. }
        | Condition::Held { total } => total == 1,
    }
}

// Whether the long record can hold a message: its total is above 1, and it is never urgent.
#[tactic(auto, unfolding(rules::specs::StationLimits::long_within))]
pub fn long_within(k: Condition) -> bool
    ensures { result ≡ long_within k }
{
    match k {
        Condition::Free => true,
        Condition::Urgent { .. } => false,
        Condition::Fresh { total }
        | Condition::Asked { total, .. }
        | Condition::Resolving { total, .. }
        | Condition::Long { total, .. }
        | Condition::Held { total } => 1 < total,
    }
}
