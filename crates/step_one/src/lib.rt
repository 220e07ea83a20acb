// Step 1 of the counters: the lengths that a slot of the next group works on, before and after a row's newcomers join, and whether they
// fit. Each function is equal to its rule of crate `rules`.

#![tactic(auto)]

ghost use Rattle.std.specs.Prelude.{◌≡◌};
ghost use Rattle.rules.specs.Hearing.{feedback_of};
ghost use Rattle.rules.specs.Queueing.{passes, places_of, step_one_of};
ghost use Rattle.queueing.specs.Bounds.{Within};

use counters::resolution_of;
use immediate::{immediate_success, opened_of};
use minislot::RowReading;
use queueing::queue_row;
use rules::{Counters, Places, StepOne};

// The limits of H, N and each RQ (paper 01, "Counters"), as lengths that may have passed them.
const URGENT_LIMIT: u32 = 4095;

const LONG_LIMIT: u32 = 65535;

const RESOLUTION_LIMIT: u32 = 4095;

// The lengths that a slot of the next group works on.
fn places_of(c: Counters) -> Places
    ensures value { result ≡ places_of c }
    ensures fits { Within 65535 result }
{
    Places {
        urgent: u32::from(c.urgent),
        long: u32::from(c.long),
        resolution: u32::from(resolution_of(c, c.next)),
    }
}

// Whether a length passes its limit.
#[tactic(auto, unfolding(rules::specs::Queueing::passes))]
fn passes_limit(p: Places) -> bool
    ensures { result ≡ passes p }
{
    URGENT_LIMIT < p.urgent || LONG_LIMIT < p.long || RESOLUTION_LIMIT < p.resolution
}

// Step 1 for whoever keeps these counters, by a row that was read: whether success is immediate, the lengths before and after, and whether
// they fit.
pub fn step_one(c: Counters, row: RowReading) -> StepOne
    ensures { result ≡ step_one_of c (feedback_of c.minislots row) }
{
    let minislots = row.minislots;
    let before = places_of(c);
    let success = immediate_success(opened_of(c), minislots, c.minislots);
    let after = queue_row(success, before, minislots, c.minislots);
    StepOne {
        success,
        before,
        after,
        fits: !passes_limit(after),
    }
}
