// The long stretches cover the long queue without overlap.
ghost use Rattle.std.specs.Prelude.{◌≡◌};
ghost use Rattle.stretches.specs.Stretches.{covered};
ghost use Rattle.channel_rules.specs.Soundness.{long_stretches};

use arrayvec::ArrayVec;
use drawing::Messages;
use rules::Condition;
use stretches::{Stretch, covered};

// The stretches that messages hold of the long queue.
fn long_stretches(messages: &Messages) -> ArrayVec<Stretch, 128>
    ensures { result.items ≡ long_stretches messages.now.items }
{
    let mut stretches = ArrayVec::new();
    for m in messages.as_slice() {
        if let Condition::Long { first, left, .. } = m.condition {
            stretches.push(Stretch { first, left });
        }
    }
    stretches
}

// The clause for a queue of so many places.
pub fn long_sound(messages: &Messages, queue: u16) -> bool
    ensures { result ≡ covered (long_stretches messages.now.items) queue }
{
    covered(long_stretches(messages).as_slice(), queue)
}
