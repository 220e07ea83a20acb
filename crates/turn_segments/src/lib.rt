// The segment of two messages: a part of the short or of the long one, by the turn.

#![tactic(auto)]

ghost use Rattle.std.specs.Prelude.{◌≡◌, ◌≤◌, length};
ghost use Rattle.turn_segments.specs.TurnSegment.{within, taken_number, taken_part, turn_segment_number, turn_segment_of};

use rules::Turn;
use segments::{refuse, segment};

// Segment j of a message whose kind has from `least` up to `most` bytes. A message of either kind is one for `segment` too, which past
// both tests has no 10 to give, only 13.
fn of_kind<'a>(message: &'a [u8], least: usize, most: usize, j: usize, number: &mut u8) -> &'a [u8]
    requires { (1 ≤ least) × (most ≤ 12240) }
    ensures part { result.now ≡ taken_part (within least most) message.now j }
    ensures told { number.new ≡ taken_number (within least most) (length message.now) j }
{
    let bytes = message.len();
    if bytes < least {
        return refuse(message, 10, number);
    }
    if bytes > most {
        return refuse(message, 10, number);
    }
    segment(message, j, number)
}

// Segment j of the message that the turn takes: urgent and open take the short, of 1 to 48 bytes, long the long, of 49 to 12,240. It is
// handed back as a part of that message, one of the two lent, and both stay as they are. The number lent is set to 0, or on a refusal,
// where the part is empty, to 13 for a turn that takes neither; then to 10 for a length outside its own kind, or 13 for no segment of it.
// The length of the message not taken is not looked at.
pub fn segment_of<'a>(
    short: &'a [u8],
    long: &'a [u8],
    turn: Turn,
    j: usize,
    number: &mut u8,
) -> &'a [u8]
    ensures part { result.now ≡ turn_segment_of turn short.now long.now j }
    ensures told { number.new ≡ turn_segment_number turn (length short.now) (length long.now) j }
{
    match turn {
        Turn::Owned { .. } => refuse(short, 13, number),
        Turn::Urgent => of_kind(short, 1, 48, j, number),
        Turn::Long => of_kind(long, 49, 12240, j, number),
        Turn::Resolve => refuse(short, 13, number),
        Turn::Open => of_kind(short, 1, 48, j, number),
    }
}
