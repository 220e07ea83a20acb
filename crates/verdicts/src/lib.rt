// Whether a writing goes through: an offer, a hold, a commit or a withdrawal of a station. Each function is equal to its rule of crate
// `rules`.

#![tactic(auto)]

ghost use Rattle.std.specs.Prelude.{◌≡◌};
ghost use Rattle.message.specs.Message.{slots_for};
ghost use Rattle.rules.specs.Requesting.{total_of};
ghost use Rattle.rules.specs.Writing.{new_number_of, held_number_of};
ghost use Rattle.verdicts.specs.Verdicts.{refused_verdict, verdict_by, verdict_of};

use message::{SlotTotal, slots};
use record_choice::{record_in, record_of};
use record_states::{is_free, is_held};
use requesting::total_of;
use rules::{Condition, Station, Writing};

// The number of the refusal, 0 where the writing goes through, and the slot total that it answers, 0 where it is refused.
#[derive(Clone, Copy)]
pub struct Verdict {
    pub number: u8,
    pub total: u8,
}

fn refused(number: u8) -> Verdict
    ensures { result ≡ refused_verdict number }
{
    Verdict { number, total: 0 }
}

// A new message of this many bytes, for a record that stands at k. 10: 0 bytes or more than 12,240. 9: the record is in use.
#[tactic(auto, unfolding(crate::specs::Verdicts::verdict_by, message::specs::Message::slot_total_of))]
fn judge_new(bytes: usize, k: Condition) -> Verdict
    ensures { result ≡ verdict_by (new_number_of bytes k) (slots_for bytes) }
{
    match slots(bytes) {
        SlotTotal::Refused(_) => refused(10),
        SlotTotal::Slots(_) if !is_free(k) => refused(9),
        SlotTotal::Slots(total) => Verdict { number: 0, total },
    }
}

// A message that is held, in a record that stands at k. 22: it isn't held.
#[tactic(auto, unfolding(crate::specs::Verdicts::verdict_by))]
fn judge_held(k: Condition) -> Verdict
    ensures { result ≡ verdict_by (held_number_of k) (total_of k) }
{
    if is_held(k) {
        Verdict {
            number: 0,
            total: total_of(k),
        }
    } else {
        refused(22)
    }
}

// Whether a writing of a station goes through. An offer and a hold: 10, 9. A commit and a withdrawal: 22.
#[tactic(auto, unfolding(crate::specs::Verdicts::verdict_of, crate::specs::Verdicts::verdict_by))]
pub fn judge(s: Station, w: Writing) -> Verdict
    ensures { result ≡ verdict_of s w }
{
    let k = record_in(record_of(w), s);
    match w {
        Writing::Offer { bytes } | Writing::Hold { bytes } => judge_new(bytes, k),
        Writing::Commit { .. } | Writing::Withdraw { .. } => judge_held(k),
    }
}
