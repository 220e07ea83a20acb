// The record of `rehearse` that starts the channel: the channel's own start, by what the record holds.

#![tactic(auto)]

ghost use Rattle.std.specs.Prelude.{◌≡◌};
ghost use Rattle.fields.specs.Fields.{parts};
ghost use Rattle.call_fields.specs.CallFields.{start_in};
ghost use Rattle.rehearsing.specs.Rehearsing.{started_result, start_result};
ghost use Rattle.rehearsing.specs.Rehearse.{reached_by, result_by};

use local_channel::LocalStarted;
use programs::{Progress, place_following};
use rehearsing::{Next, Rehearsal, blank, end_with};
use rules::StartAnswer;
use start_fields::start_fields;

// A start that was made: nothing is printed, or its number ends the output.
fn begin_with(r: Rehearsal, started: LocalStarted, next: usize, out: &mut [u8], at: usize) -> Next
    ensures buffer { out.new ≡ (result_by r (started_result r started) next out.old at).buffer }
    ensures answer { reached_by result ≡ (result_by r (started_result r started) next out.old at).answer }
{
    match started.answer {
        StartAnswer::Refused(number) => end_with(r, number, next, out, at),
        StartAnswer::Ready => Next {
            progress: Progress::Went,
            rehearsal: Rehearsal {
                channel: started.channel,
                place: place_following(r.place),
            },
            next,
            at,
        },
    }
}

// The start: a table of as many stations as the record has indexes. 19: it breaks the form. Then the numbers of a channel's start.
pub fn start_record(r: Rehearsal, bytes: &[u8], next: usize, out: &mut [u8], at: usize) -> Next
    ensures buffer { out.new
        ≡ (result_by r (start_result r (start_in (parts bytes.now))) next out.old at).buffer }
    ensures answer { reached_by result
        ≡ (result_by r (start_result r (start_in (parts bytes.now))) next out.old at).answer }
{
    let Some(fields) = start_fields(bytes) else {
        return end_with(r, 19, next, out, at);
    };
    let count = fields.indexes.count;
    let values = fields.indexes.values;
    let started = local_channel::start(blank(count), fields.m, fields.n, &values[..count]);
    begin_with(r, started, next, out, at)
}
