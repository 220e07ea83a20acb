// Each place of the urgent queue has exactly one message.
ghost use Rattle.std.specs.Prelude.{◌≡◌};
ghost use Rattle.places.specs.Places.{taken_once};
ghost use Rattle.channel_rules.specs.Soundness.{urgent_places};

use drawing::{Messages, Places};
use places::taken_once;
use rules::Condition;

// The places that messages hold in the urgent queue.
fn urgent_places(messages: &Messages) -> Places
    ensures { result.items ≡ urgent_places messages.now.items }
{
    let mut places = Places::new();
    for m in messages.as_slice() {
        if let Condition::Urgent { place } = m.condition {
            places.push(place);
        }
    }
    places
}

// The clause for a queue of so many places.
pub fn urgent_sound(messages: &Messages, queue: u16) -> bool
    ensures { result ≡ taken_once (urgent_places messages.now.items) queue }
{
    taken_once(urgent_places(messages).as_slice(), queue)
}
