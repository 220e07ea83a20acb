// What the limits of a station say of its two message records together (paper 02, T-04): that they stand apart. Each test is equal to its rule
// of crate `rules`.

#![tactic(auto)]

ghost use Rattle.std.specs.Prelude.{◌≡◌};
ghost use Rattle.rules.specs.StationLimits.{not_asked, not_at, records_apart};

use rules::Condition;

// Whether a message is not asked in group g.
fn not_asked(g: u8, k: Condition) -> bool
    ensures { result ≡ not_asked g k }
{
    match k {
        Condition::Asked { group, .. } => group != g,
        _ => true,
    }
}

// Whether a message is not at place i of group g's resolution queue.
fn not_at(g: u8, i: u16, k: Condition) -> bool
    ensures { result ≡ not_at g i k }
{
    match k {
        Condition::Resolving { group, place, .. } => !(group == g && place == i),
        _ => true,
    }
}

// Whether two messages of one station share neither an asked group nor a place of a resolution queue.
#[tactic(auto, unfolding(rules::specs::StationLimits::records_apart))]
pub fn records_apart(short: Condition, long: Condition) -> bool
    ensures { result ≡ records_apart short long }
{
    match short {
        Condition::Asked { group, .. } => not_asked(group, long),
        Condition::Resolving { group, place, .. } => not_at(group, place, long),
        _ => true,
    }
}
