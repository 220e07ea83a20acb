// One record of `rehearse`, the start or a call.

#![tactic(auto)]

ghost use Rattle.std.specs.Prelude.{◌≡◌};
ghost use Rattle.rehearsing.specs.Rehearsing.{show_result, rehearse_record};
ghost use Rattle.rehearsing.specs.Rehearse.{reached_by, result_by};

use call_records::{Kind, kind_of};
use programs::{Progress, past_first, place_following};
use rehearse_calls::{bare_slot, calendar_record, slot_record, write_record};
use rehearse_coming::coming_record;
use rehearse_starts::start_record;
use rehearsing::{Next, Rehearsal, counters_of, end_with};
use show_lines::put_show;
use write_fields::{commit_in, hold_in, offer_in, withdrawal_in};

// The channel shown.
fn show_record(r: Rehearsal, next: usize, out: &mut [u8], at: usize) -> Next
    ensures buffer { out.new ≡ (result_by r (show_result r) next out.old at).buffer }
    ensures answer { reached_by result ≡ (result_by r (show_result r) next out.old at).answer }
{
    let channel = r.channel;
    let after = put_show(
        out,
        at,
        past_first(r.place),
        counters_of(channel.stations),
        channel.stations,
        channel.count,
        channel.wire,
    );
    Next {
        progress: Progress::Went,
        rehearsal: Rehearsal {
            channel,
            place: place_following(r.place),
        },
        next,
        at: after,
    }
}

// One record, which is handed over without its CR LF: the start, and then calls. 19: it is no call of the form. The next record begins at
// place next.
pub fn rehearse_record(r: Rehearsal, bytes: &[u8], next: usize, out: &mut [u8], at: usize) -> Next
    ensures buffer { out.new ≡ (result_by r (rehearse_record r bytes.now) next out.old at).buffer }
    ensures answer { reached_by result ≡ (result_by r (rehearse_record r bytes.now) next out.old at).answer }
{
    if r.place <= 1 {
        return start_record(r, bytes, next, out, at);
    }
    match kind_of(bytes) {
        Kind::Slot => slot_record(r, bytes, next, out, at),
        Kind::Offer => write_record(r, offer_in(bytes), next, out, at),
        Kind::Hold => write_record(r, hold_in(bytes), next, out, at),
        Kind::Commit => write_record(r, commit_in(bytes), next, out, at),
        Kind::Withdraw => write_record(r, withdrawal_in(bytes), next, out, at),
        Kind::BareSlot => bare_slot(r, next, out, at),
        Kind::Calendar => calendar_record(r, bytes, next, out, at),
        Kind::Show => show_record(r, next, out, at),
        Kind::Coming => coming_record(r, bytes, next, out, at),
        Kind::Unknown => end_with(r, 19, next, out, at),
    }
}
