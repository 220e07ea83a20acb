// Step 4 for one message: the segment that it sends, and the slots of it that wait. Each function is equal to its rule of crate `rules`,
// for any condition.

#![tactic(auto)]

ghost use Rattle.std.specs.Prelude.{◌≡◌, ◌-◌};
ghost use Rattle.rules.specs.Serving.{sends as sends_of, urgent_segment, long_segment, open_segment, waiting as waiting_of};

use requesting::{requests, total_of};
use rules::{Condition, Turn};

// The slots of a message that wait.
pub fn waiting(k: Condition) -> u8
    ensures { result ≡ waiting_of k }
{
    match k {
        Condition::Free | Condition::Held { .. } => 0,
        Condition::Fresh { total }
        | Condition::Asked { total, .. }
        | Condition::Resolving { total, .. } => total,
        Condition::Urgent { .. } => 1,
        Condition::Long { left, .. } => left,
    }
}

fn urgent_segment(k: Condition) -> u8
    ensures { result ≡ urgent_segment k }
{
    match k {
        Condition::Urgent { place: 1 } => 1,
        _ => 0,
    }
}

// The next segment of a message with this many slots left: all segments before it are sent.
fn next_segment(left: u8, total: u8) -> u8
    ensures { result ≡ total - (left - 1) }
{
    total.saturating_sub(left.saturating_sub(1))
}

fn long_segment(k: Condition) -> u8
    ensures { result ≡ long_segment k }
{
    match k {
        Condition::Long {
            first: 1,
            left,
            total,
        } => next_segment(left, total),
        _ => 0,
    }
}

fn open_segment(requesting: bool, total: u8) -> u8
    ensures { result ≡ open_segment requesting total }
{
    u8::from(requesting && total == 1)
}

// The segment that a message sends in a slot of group g, 0 for none, from its condition after step 1; r is the group's RQ then. In an
// owned slot no message sends.
#[tactic(auto, unfolding(rules::specs::Serving::sends))]
pub fn sends(t: Turn, r: u32, g: u8, k: Condition) -> u8
    ensures { result ≡ sends_of t r g k }
{
    match t {
        Turn::Owned { .. } | Turn::Resolve => 0,
        Turn::Urgent => urgent_segment(k),
        Turn::Long => long_segment(k),
        Turn::Open => open_segment(requests(r, g, k), total_of(k)),
    }
}
