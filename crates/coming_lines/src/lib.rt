// The line that `rehearse` prints of who sends in the coming slots, written into a buffer. What does not fit is not written at all.

#![tactic(auto)]

ghost use Rattle.std.specs.Prelude.{◌≡◌, ◌∷◌, min, take};
ghost use Rattle.coming_rules.specs.declared.ComingAnswer.TheVariants.{Until};
ghost use Rattle.decimals.specs.Putting.{put_at, place_after};
ghost use Rattle.coming_lines.specs.ComingLines.{coming_line};

use coming_rules::ComingAnswer;
use forms::put_form;

// The room of a list of coming slots: one entry more than a list may have, so that a longer one is refused by the call itself.
const ROOM: usize = 1025;

// How many entries of the room a list of so many slots takes.
pub fn entries_for(w: usize) -> usize
    ensures { result ≡ min w 1025 }
{
    w.min(ROOM)
}

// The numbers of the line: the call, the slots until both transmission queues are empty, and the room's entries.
fn coming_values(call: u64, slots: u32, list: [u16; 1025]) -> [u64; 1027]
    ensures { result ≡ call ∷ slots ∷ list }
{
    let mut values = [0; 1027];
    values[0] = call;
    values[1] = slots as u64;
    for (i, entry) in list.iter().enumerate() {
        values[i + 2] = *entry as u64;
    }
    values
}

// The line of a list of w slots.
fn put_until(out: &mut [u8], at: usize, call: u64, slots: u32, list: [u16; 1025], w: usize) -> usize
    ensures buffer { out.new ≡ put_at out.old at (coming_line call (Until slots) (take w list)) }
    ensures reached { result ≡ place_after out.old at (coming_line call (Until slots) (take w list)) }
{
    let values = coming_values(call, slots, list);
    let count = entries_for(w) + 2;
    put_form(out, at, b"#,coming", &values[..count])
}

// The line of an answer, at place at if it fits there: call, its number in the list of calls; the first w entries of the room are the list
// that was lent. Gives the place after the line, or at.
pub fn put_coming(
    out: &mut [u8],
    at: usize,
    call: u64,
    answer: ComingAnswer,
    list: [u16; 1025],
    w: usize,
) -> usize
    ensures buffer { out.new ≡ put_at out.old at (coming_line call answer (take w list)) }
    ensures reached { result ≡ place_after out.old at (coming_line call answer (take w list)) }
{
    match answer {
        ComingAnswer::Until(slots) => put_until(out, at, call, slots, list, w),
        ComingAnswer::Refused(number) => put_form(out, at, b"#,refused", &[call, number as u64]),
    }
}
