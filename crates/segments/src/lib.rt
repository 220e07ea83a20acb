// A message's segments, one for each of its slots.

#![tactic(auto)]

ghost use Rattle.std.specs.Prelude.{◌≡◌, [], length};
ghost use Rattle.segments.specs.Segment.{segment_of, segment_number};

use message::{SlotTotal, slots};

// A refusal of a segment: its number, and an empty part.
pub fn refuse<'a>(message: &'a [u8], refusal: u8, number: &mut u8) -> &'a [u8]
    ensures part { result.now ≡ [] }
    ensures told { number.new ≡ refusal }
{
    *number = refusal;
    &message[0..0]
}

// Segment j of a message: the sender's own bytes, handed back as a part of the message lent, which stays as it is. The
// number lent is set to 0, or on a refusal, where the part is empty, to 10 or 13.
pub fn segment<'a>(message: &'a [u8], j: usize, number: &mut u8) -> &'a [u8]
    ensures part { result.now ≡ segment_of message.now j }
    ensures told { number.new ≡ segment_number (length message.now) j }
{
    let bytes = message.len();
    let SlotTotal::Slots(total) = slots(bytes) else {
        return refuse(message, 10, number);
    };
    if j == 0 {
        return refuse(message, 13, number);
    }
    if j > total as usize {
        return refuse(message, 13, number);
    }
    *number = 0;
    let from = 48 * (j - 1);
    let end = (from + 48).min(bytes);
    &message[from..end]
}
