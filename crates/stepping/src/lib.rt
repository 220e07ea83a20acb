// All that a station does in a slot that no test refuses, for the station's own slot and for the channel's walk alike. Each function is
// equal to its rule of crate `rules`.

#![tactic(auto)]

ghost use Rattle.std.specs.Prelude.{◌≡◌};
ghost use Rattle.rules.specs.Stepping.{asker as asker_of, sender as sender_of, request_total, step_of};

use beside::acts_both;
use requesting::total_of;
use rules::{Acted, MessageRecord, Outcome, SlotAnswer, Station, StationSlot};

// Of what a station's two messages do, first the short one: the message that asks.
fn asker(x: Acted, y: Acted) -> Acted
    ensures { result ≡ asker_of x y }
{
    if x.minislot == 0 { y } else { x }
}

// The message that sends.
fn sender(x: Acted, y: Acted) -> Acted
    ensures { result ≡ sender_of x y }
{
    if x.segment == 0 { y } else { x }
}

// The slot total that a request carries, 0 for none.
fn request_total(x: Acted) -> u8
    ensures { result ≡ request_total x }
{
    let k = x.condition;
    if x.minislot == 0 { 0 } else { total_of(k) }
}

// Its messages by the slot's outcome, and the counters that the outcome leaves.
pub fn step(s: Station, o: Outcome, pick: u8) -> StationSlot
    ensures { result ≡ step_of o s pick }
{
    let a = s.short;
    let b = s.long;
    let short = a.condition;
    let long = b.condition;
    let both = acts_both(o, short, long, pick);
    let x = both[0];
    let y = both[1];
    let asking = asker(x, y);
    let sending = sender(x, y);
    let turn = o.turn;
    let counters = o.counters;
    let short_after = x.condition;
    let long_after = y.condition;
    StationSlot {
        answer: SlotAnswer::Went {
            turn,
            minislot: asking.minislot,
            segment: sending.segment,
        },
        request: request_total(asking),
        station: Station {
            counters,
            index: s.index,
            short: MessageRecord {
                condition: short_after,
            },
            long: MessageRecord {
                condition: long_after,
            },
        },
    }
}
