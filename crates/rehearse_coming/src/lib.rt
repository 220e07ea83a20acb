// A record of `rehearse` that asks who sends in the coming slots: the channel's own call, on a list that is lent here, and its line.

#![tactic(auto)]

ghost use Rattle.std.specs.Prelude.{◌≡◌, drop, replicate};
ghost use Rattle.fields.specs.Fields.{parts};
ghost use Rattle.coming_fields.specs.ComingFields.{coming_in};
ghost use Rattle.rehearsing.specs.Rehearsing.{coming_with, coming_result};
ghost use Rattle.rehearsing.specs.Rehearse.{reached_by, result_by};

use coming_fields::coming_fields;
use coming_lines::{entries_for, put_coming};
use programs::{Progress, past_first, place_following};
use rehearsing::{Next, Rehearsal, end_with};

// The room of a list of coming slots, with nothing in it.
fn no_entries() -> [u16; 1025]
    ensures { result ≡ replicate 1025 0 }
{
    [0u16; 1025]
}

// Who sends in the next w slots: the line of the answer. The channel stays as it was.
fn ask_coming(r: Rehearsal, w: u16, next: usize, out: &mut [u8], at: usize) -> Next
    ensures buffer { out.new ≡ (result_by r (coming_with r w) next out.old at).buffer }
    ensures answer { reached_by result ≡ (result_by r (coming_with r w) next out.old at).answer }
{
    let count = entries_for(w as usize);
    let mut list = no_entries();
    let answer = local_coming::coming(r.channel, &mut list[..count]);
    let after = put_coming(out, at, past_first(r.place), answer, list, count);
    Next {
        progress: Progress::Went,
        rehearsal: Rehearsal {
            channel: r.channel,
            place: place_following(r.place),
        },
        next,
        at: after,
    }
}

// Who sends in the coming slots, as many as the number after `coming,` says. 19: it breaks the form. Every other answer is a line.
pub fn coming_record(r: Rehearsal, bytes: &[u8], next: usize, out: &mut [u8], at: usize) -> Next
    ensures buffer { out.new
        ≡ (result_by r (coming_result r (coming_in (parts (drop 7 bytes.now)))) next out.old at).buffer }
    ensures answer { reached_by result
        ≡ (result_by r (coming_result r (coming_in (parts (drop 7 bytes.now)))) next out.old at).answer }
{
    let Some(w) = coming_fields(bytes, 7) else {
        return end_with(r, 19, next, out, at);
    };
    ask_coming(r, w, next, out, at)
}
