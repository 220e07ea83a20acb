// What the calls on a channel come back with, and the test that they have in common.

#![tactic(auto)]

ghost use Rattle.std.specs.Prelude.{◌≡◌};
ghost use Rattle.rules.specs.Limits.{between};
ghost use Rattle.calls.specs.Replies.{refused_reply, refused_decided};

use rules::{Answer, Outcome, StartAnswer, WireRow};
use table::{Loaded, blanks, hold};

// The most stations that a channel has.
const MOST_STATIONS: usize = 64;

// What a start comes back with: its answer, and the wire after it (as it came where the start is refused).
#[derive(Clone, Copy)]
pub struct StartReply {
    pub answer: StartAnswer,
    pub wire: [WireRow; 8],
}

// What a writing, a calendar or a slot comes back with: its answer, and the wire after it (as it came where the call is refused).
#[derive(Clone, Copy)]
pub struct CallReply {
    pub answer: Answer,
    pub wire: [WireRow; 8],
}

// What a writing or a calendar comes to, on a copy of the table: the records to be written over the table (none where it is refused), and
// its reply.
#[derive(Clone, Copy)]
pub struct Decided {
    pub loaded: Loaded,
    pub reply: CallReply,
}

// A slot judged: its number in order of checking (0 where it goes through), how many stations step, and the outcome that they step by.
#[derive(Clone, Copy)]
pub struct Judged {
    pub number: u8,
    pub steps: usize,
    pub outcome: Outcome,
}

// Whether a channel can have n stations.
pub fn has_stations(n: usize) -> bool
    ensures { result ≡ between 1 n 64 }
{
    1 <= n && n <= MOST_STATIONS
}

// A call that is refused.
pub fn refuse(wire: [WireRow; 8], number: u8) -> CallReply
    ensures { result ≡ refused_reply wire number }
{
    CallReply {
        answer: Answer::Refused(number),
        wire,
    }
}

// The same, on a copy of the table: no record is written.
#[tactic(auto, unfolding(table::specs::Loading::blank_of))]
pub fn decline(wire: [WireRow; 8], number: u8) -> Decided
    ensures { result ≡ refused_decided wire number }
{
    Decided {
        loaded: hold(blanks(), 0),
        reply: refuse(wire, number),
    }
}
