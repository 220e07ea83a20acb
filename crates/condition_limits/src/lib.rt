// The limits of one message's condition, by the counters that its station keeps. Each test is equal to its rule of crate `rules`.

#![tactic(auto)]

ghost use Rattle.std.specs.Prelude.{◌≡◌, ◌&&◌, ◌+◌, leb};
ghost use Rattle.rules.specs.Limits.{between};
ghost use Rattle.rules.specs.StationLimits.{condition_within, is_total};

use counters::resolution_of;
use rules::{Condition, Counters};

// Whether a condition is within its limits, by the counters that its station keeps.
#[tactic(auto, unfolding(rules::specs::StationLimits::condition_within))]
pub fn condition_within(c: Counters, k: Condition) -> bool
    ensures { result ≡ condition_within c k }
{
    match k {
        Condition::Free => true,
        Condition::Fresh { total } | Condition::Held { total } => 1 <= total,
        Condition::Asked {
            group,
            minislot,
            total,
        } => grouped_within(
            c.groups,
            group,
            u16::from(c.minislots),
            u16::from(minislot),
            total,
        ),
        Condition::Resolving {
            group,
            place,
            total,
        } => grouped_within(c.groups, group, resolution_of(c, group), place, total),
        Condition::Urgent { place } => urgent_within(c.urgent, place),
        Condition::Long { first, left, total } => stretch_within(c.long, first, left, total),
    }
}

// A message of a group: the minislot that it asked in, or its place in the group's resolution queue, is one of so many.
fn grouped_within(groups: u8, group: u8, places: u16, place: u16, total: u8) -> bool
    ensures { result ≡ between 1 group groups && between 1 place places && is_total total }
{
    (1..=groups).contains(&group) && (1..=places).contains(&place) && 1 <= total
}

fn urgent_within(places: u16, place: u16) -> bool
    ensures { result ≡ between 1 place places }
{
    (1..=places).contains(&place)
}

fn stretch_within(places: u16, first: u16, left: u8, total: u8) -> bool
    ensures { result ≡ between 2 total 255 && between 1 left total && leb 1 first && leb (first + left) (places + 1) }
{
    2 <= total
        && (1..=total).contains(&left)
        && 1 <= first
        && u32::from(first) + u32::from(left) <= u32::from(places) + 1
}
