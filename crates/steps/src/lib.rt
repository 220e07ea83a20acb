// What a message does in a slot, from the slot's outcome and the message's condition: steps 1 and 3 to 5, for any condition. Whoever keeps
// the counters once applies it to each message.

#![tactic(auto)]

ghost use Rattle.std.specs.Prelude.{◌≡◌};
ghost use Rattle.rules.specs.Stepping.{acts_of};

use landing::settled_in;
use moving::moves;
use requesting::{request, request_minislot, requests};
use rules::{Acted, Condition, Outcome};
use serving::sends;

// What a message in this condition does: its condition after the slot, the minislot of its request and the segment it sends.
#[tactic(auto, unfolding(rules::specs::Stepping::acts_of))]
pub fn acts(o: Outcome, k: Condition, pick: u8) -> Acted
    ensures { result ≡ acts_of o k pick }
{
    let settled = settled_in(o.landed, o.group, k);
    let asked = request(o.resolution, o.group, pick, settled);
    let requesting = requests(o.resolution, o.group, settled);
    Acted {
        condition: moves(o.turn, asked),
        minislot: request_minislot(requesting, pick),
        segment: sends(o.turn, o.resolution, o.group, settled),
    }
}
