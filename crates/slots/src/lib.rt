// A slot of a channel, judged on a copy of the table before any station steps.

#![tactic(auto)]

ghost use Rattle.std.specs.Prelude.{◌≡◌};
ghost use Rattle.calls.specs.ByValue.{array_channel};
ghost use Rattle.slots.specs.Judging.{judged_refused, judged_of, JudgedOn};
ghost use Rattle.slots.specs.Heard.{Readable};

use calls::{Judged, has_stations};
use outcomes::outcome;
use rules::{Counters, Landed, Landing, Outcome, Station, Turn, WireRow};
use soundness::sound;
use step_one::step_one;
use table::Loaded;
use wire_hearing::{picks_within, read_group};

// A slot that is refused: nobody steps.
fn refuse_slot(number: u8) -> Judged
    ensures { result ≡ judged_refused number }
{
    let landed = Landed {
        landing: Landing::Gone,
    };
    Judged {
        number,
        steps: 0,
        outcome: Outcome {
            group: 0,
            turn: Turn::Open,
            resolution: 0,
            landed: [landed; 8],
            counters: counters::none(),
            delivered: 0,
        },
    }
}

// A slot of a sound table of n stations that share these counters: 17, 11, 7.
fn judge_sound(c: Counters, n: usize, wire: [WireRow; 8], picks: &[u8]) -> Judged
    requires { Readable c wire }
    ensures { JudgedOn c n wire picks.now result }
{
    if picks.len() != n {
        return refuse_slot(17);
    }
    if !picks_within(picks, c.minislots) {
        return refuse_slot(11);
    }
    let row = read_group(c, wire);
    let one = step_one(c, row);
    if !one.fits {
        return refuse_slot(7);
    }
    Judged {
        number: 0,
        steps: n,
        outcome: outcome(c, row, one),
    }
}

// A slot on the first n of the records: 14, 18, 17, 11, 7.
pub fn judge_slot(stations: [Station; 64], n: usize, wire: [WireRow; 8], picks: &[u8]) -> Judged
    ensures { result ≡ judged_of (array_channel stations n wire) picks.now }
{
    if !has_stations(n) {
        return refuse_slot(14);
    }
    if !sound(stations, n, wire) {
        return refuse_slot(18);
    }
    let first = stations[0];
    let c = first.counters;
    judge_sound(c, n, wire, picks)
}

// The same on a table that was loaded.
pub fn judge(d: Loaded, wire: [WireRow; 8], picks: &[u8]) -> Judged
    ensures { result ≡ judged_of (array_channel d.stations d.count wire) picks.now }
{
    let stations = d.stations;
    judge_slot(stations, d.count, wire, picks)
}
