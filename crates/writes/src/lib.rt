// A writing on a channel: what an offer, a hold, a commit or a withdrawal comes to, by its number, on a copy of the table.

#![tactic(auto)]

ghost use Rattle.std.specs.Prelude.{◌≡◌, ◌<◌, get_or};
ghost use Rattle.rules.specs.Calls.{writing_answer};
ghost use Rattle.rules.specs.Writing.{writing_number_of};
ghost use Rattle.table.specs.Loading.{absent};
ghost use Rattle.writes.specs.Written.{written_to, decided_of};

use calls::{CallReply, Decided, decline};
use positions::position_of;
use rewriting::rewrite;
use rules::{Answer, Station, WireRow, Writing};
use table::{Loaded, hold};
use verdicts::judge;
use write_numbers::write_number;

// The answer to a writing that goes through, by its slot total.
fn answer_to(w: Writing, total: u8) -> Answer
    ensures { result ≡ writing_answer w total }
{
    match w {
        Writing::Offer { .. } => Answer::Taken(total),
        Writing::Hold { .. } => Answer::OnHold(total),
        Writing::Commit { .. } => Answer::Committed(total),
        Writing::Withdraw { .. } => Answer::Withdrawn(total),
    }
}

// Station k of the first n is written, in the message record that the writing is for.
fn write_at(stations: [Station; 64], n: usize, wire: [WireRow; 8], k: usize, w: Writing) -> Decided
    requires { (k < 64) × (writing_number_of (get_or stations k absent) w ≡ 0) }
    ensures { result ≡ written_to stations n wire k w }
{
    let s = stations[k];
    let total = judge(s, w).total;
    let mut after = stations;
    after[k] = rewrite(s, w, total);
    Decided {
        loaded: hold(after, n),
        reply: CallReply {
            answer: answer_to(w, total),
            wire,
        },
    }
}

// A writing on the first n of the records.
#[tactic(auto, unfolding(crate::specs::Written::decided_of))]
pub fn write(
    stations: [Station; 64],
    n: usize,
    wire: [WireRow; 8],
    index: u16,
    w: Writing,
) -> Decided
    ensures { result ≡ decided_of stations n wire index w }
{
    let number = write_number(stations, n, wire, index, w);
    if number != 0 {
        return decline(wire, number);
    }
    let k = position_of(stations, n, index);
    write_at(stations, n, wire, k, w)
}

// The same on a table that was loaded.
pub fn place_write(d: Loaded, wire: [WireRow; 8], index: u16, w: Writing) -> Decided
    ensures { result ≡ decided_of d.stations d.count wire index w }
{
    write(d.stations, d.count, wire, index, w)
}
