// The limits of the counters that every station keeps. Each test is equal to its rule of crate `rules`.

#![tactic(auto)]

ghost use Rattle.std.specs.Prelude.{◌≡◌};
ghost use Rattle.listlaws.specs.Every.{every_from};
ghost use Rattle.rules.specs.Limits.{within_limits, counts_within, groups_within, resolution_within, opened_within};

use calendars::calendar_within;
use counters::in_ranges;
use rules::Counters;

// The limits of H and each RQ (paper 01, "Counters"). N's is the largest number of its type.
const URGENT_LIMIT: u16 = 4095;

const RESOLUTION_LIMIT: u16 = 4095;

// Whether a record of counters is within its limits.
#[tactic(auto, unfolding(rules::specs::Limits::within_limits))]
pub fn within(c: Counters) -> bool
    ensures { result ≡ within_limits c }
{
    in_ranges(c.minislots, c.groups) && counts_within(c) && calendar_within(c)
}

// The next group, the counters and the two arrays, of as many groups as the record says.
fn counts_within(c: Counters) -> bool
    ensures { result ≡ counts_within c }
{
    1 <= c.next && c.next <= c.groups && c.urgent <= URGENT_LIMIT && groups_within(c)
}

fn groups_within(c: Counters) -> bool
    ensures { result ≡ groups_within c }
{
    resolution_within(c.groups, c.resolution) && opened_within(c.groups, c.opened)
}

// The RQ and the mark of the group at a place, one of the n groups or above them.
fn resolution_fits(n: u8, i: usize, r: u16) -> bool
    ensures { result ≡ resolution_within n i r }
{
    if i < usize::from(n) {
        r <= RESOLUTION_LIMIT
    } else {
        r == 0
    }
}

fn opened_fits(n: u8, i: usize, mark: bool) -> bool
    ensures { result ≡ opened_within n i mark }
{
    i < usize::from(n) || mark
}

fn resolution_within(n: u8, resolution: [u16; 8]) -> bool
    ensures { result ≡ every_from (resolution_within n) 0 resolution }
{
    for (i, r) in resolution.iter().enumerate() {
        if !resolution_fits(n, i, *r) {
            return false;
        }
    }
    true
}

fn opened_within(n: u8, opened: [bool; 8]) -> bool
    ensures { result ≡ every_from (opened_within n) 0 opened }
{
    for (i, mark) in opened.iter().enumerate() {
        if !opened_fits(n, i, *mark) {
            return false;
        }
    }
    true
}
