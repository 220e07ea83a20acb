// What `rehearse` knows between two records, and what is answered of a record: the channel goes on and lines are written, or the output
// ends with a refusal.

#![tactic(auto)]

ghost use Rattle.std.specs.Prelude.{◌≡◌};
ghost use Rattle.channel_rules.specs.Soundness.{table_counters};
ghost use Rattle.programs.specs.Program.{Ends};
ghost use Rattle.rehearsing.specs.Rehearsing.{blank_channel, at_start, called_result};
ghost use Rattle.rehearsing.specs.Rehearse.{reached_by, result_by};

use answer_lines::put_answer;
use conditions::no_station;
use local_channel::{LocalCalled, LocalChannel};
use programs::{Progress, past_first, place_following};
use refusals::put_refusal;
use rules::{Counters, Station};
use starts::blank_wire;

// What is known between two records: the channel, and the number of the record to come (from 1; the first is the start).
#[derive(Clone, Copy)]
pub struct Rehearsal {
    pub channel: LocalChannel,
    pub place: u64,
}

// A record read and its lines written: what became of it, what is known after it, where the next begins, and the place after the lines.
#[derive(Clone, Copy)]
pub struct Next {
    pub progress: Progress,
    pub rehearsal: Rehearsal,
    pub next: usize,
    pub at: usize,
}

// A table of so many records that stand for no station, and a silent wire.
pub fn blank(count: usize) -> LocalChannel
    ensures { result ≡ blank_channel count }
{
    LocalChannel {
        stations: [no_station(); 65],
        count,
        wire: blank_wire(),
    }
}

// Before the start.
pub fn begin() -> Rehearsal
    ensures { result ≡ at_start }
{
    Rehearsal {
        channel: blank(0),
        place: 1,
    }
}

// The counters that all stations share.
pub fn counters_of(stations: [Station; 65]) -> Counters
    ensures { result ≡ table_counters stations }
{
    let first = stations[0];
    first.counters
}

// A refusal, which ends the output; what is known stays as it was.
pub fn end_with(r: Rehearsal, number: u8, next: usize, out: &mut [u8], at: usize) -> Next
    ensures buffer { out.new ≡ (result_by r (Ends number) next out.old at).buffer }
    ensures answer { reached_by result ≡ (result_by r (Ends number) next out.old at).answer }
{
    let after = put_refusal(out, at, number, r.place);
    Next {
        progress: Progress::Refused(number),
        rehearsal: r,
        next,
        at: after,
    }
}

// A call that was made on the channel: its line.
pub fn answer_with(
    r: Rehearsal,
    called: LocalCalled,
    next: usize,
    out: &mut [u8],
    at: usize,
) -> Next
    ensures buffer { out.new ≡ (result_by r (called_result r called) next out.old at).buffer }
    ensures answer { reached_by result ≡ (result_by r (called_result r called) next out.old at).answer }
{
    let channel = called.channel;
    let answer = called.answer;
    let channel_before = r.channel;
    let before = channel_before.stations;
    let c = counters_of(before);
    let stations = channel.stations;
    let d = counters_of(stations);
    let after = put_answer(out, at, past_first(r.place), c.next, d, answer);
    Next {
        progress: Progress::Went,
        rehearsal: Rehearsal {
            channel,
            place: place_following(r.place),
        },
        next,
        at: after,
    }
}
