// The places that a message has in both transmission queues together, the urgent queue's first, and the list of who is served at each
// place before any message is put there (paper 02, T-07).

#![tactic(auto)]

ghost use Rattle.std.specs.Prelude.{◌≡◌, ◌+◌, ◌-◌};
ghost use Rattle.message_places.specs.PlacesHad.{places_had, nobody_served};

use rules::Condition;

// The places that a message has, counted from 0: the first, and how many.
#[derive(Clone, Copy)]
pub struct Had {
    pub first: u32,
    pub count: u8,
}

const NONE: Had = Had { first: 0, count: 0 };

// Stands for nobody.
const NOBODY: u16 = 65535;

// A queue's place, counted from 0, behind so many places of the queue before it.
fn behind(others: u16, place: u16) -> u32
    ensures { result ≡ others + (place - 1) }
{
    u32::from(others) + u32::from(place.saturating_sub(1))
}

// The places of a condition, where the urgent queue has h.
pub fn places_had(h: u16, condition: Condition) -> Had
    ensures { result ≡ places_had h condition }
{
    match condition {
        Condition::Urgent { place } => Had {
            first: behind(0, place),
            count: 1,
        },
        Condition::Long { first, left, .. } => Had {
            first: behind(h, first),
            count: left,
        },
        _ => NONE,
    }
}

// Nobody is served at any place, of as many as a list of coming senders can ask for.
pub fn nobody_served() -> [u16; 1024]
    ensures { result ≡ nobody_served }
{
    [NOBODY; 1024]
}
