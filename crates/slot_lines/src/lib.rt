// The line that `rehearse` prints for a slot that went through, written into a buffer. What does not fit is not written at all.

#![tactic(auto)]

ghost use Rattle.std.specs.Prelude.{◌≡◌};
ghost use Rattle.decimals.specs.Putting.{put_at, place_after};
ghost use Rattle.slot_lines.specs.SlotLine.{slot_line};

use counters::resolution_of;
use forms::put_form;
use rules::{Counters, Turn};
use turn_letters::letter;

// The line of a slot, at place at if it fits there; gives the place after it, or at. call, its number in the list; group, whose slot it
// is; c, the counters after it.
pub fn put_slot(
    out: &mut [u8],
    at: usize,
    call: u64,
    group: u8,
    c: Counters,
    turn: Turn,
    senders: u8,
    index: u16,
    segment: u8,
    delivered: u8,
) -> usize
    ensures buffer { out.new ≡ put_at out.old at (slot_line call group c turn senders index segment delivered) }
    ensures reached { result ≡ place_after out.old at (slot_line call group c turn senders index segment delivered) }
{
    let form = [
        b'#',
        b',',
        b's',
        b'l',
        b'o',
        b't',
        b',',
        b'#',
        b',',
        letter(turn),
    ];
    let values = [
        call,
        group as u64,
        senders as u64,
        index as u64,
        segment as u64,
        delivered as u64,
        c.urgent as u64,
        c.long as u64,
        resolution_of(c, group) as u64,
    ];
    put_form(out, at, &form, &values)
}
