// The lines that `rehearse` prints for the answers of calls, written into a buffer. What does not fit is not written at all.

#![tactic(auto)]

ghost use Rattle.std.specs.Prelude.{◌≡◌, [], ◌∷◌};
ghost use Rattle.decimals.specs.Putting.{put_at, place_after};
ghost use Rattle.forms.specs.Form.{form_of};
ghost use Rattle.answer_lines.specs.AnswerLines.{answer_line};

use forms::put_form;
use rules::{Answer, Counters};
use slot_lines::put_slot;

// The line of an answer that is one number: form, a mark for the call's number and then the answer's word.
fn put_number(out: &mut [u8], at: usize, call: u64, form: &[u8], number: u8) -> usize
    ensures buffer { out.new ≡ put_at out.old at (form_of form.now (call ∷ number ∷ [])) }
    ensures reached { result ≡ place_after out.old at (form_of form.now (call ∷ number ∷ [])) }
{
    put_form(out, at, form, &[call, number as u64])
}

// The line of an answer, at place at if it fits there; gives the place after it, or at.
pub fn put_answer(
    out: &mut [u8],
    at: usize,
    call: u64,
    group: u8,
    c: Counters,
    answer: Answer,
) -> usize
    ensures buffer { out.new ≡ put_at out.old at (answer_line call group c answer) }
    ensures reached { result ≡ place_after out.old at (answer_line call group c answer) }
{
    match answer {
        Answer::Refused(number) => put_number(out, at, call, b"#,refused", number),
        Answer::Taken(total) => put_number(out, at, call, b"#,offer", total),
        Answer::OnHold(total) => put_number(out, at, call, b"#,hold", total),
        Answer::Committed(total) => put_number(out, at, call, b"#,commit", total),
        Answer::Withdrawn(total) => put_number(out, at, call, b"#,withdraw", total),
        Answer::Set => put_form(out, at, b"#,calendar", &[call]),
        Answer::Went {
            turn,
            senders,
            index,
            segment,
            delivered,
        } => put_slot(
            out, at, call, group, c, turn, senders, index, segment, delivered,
        ),
    }
}
