// What is known between two records of a recording, and what a listener's answer to a row leads to: its line, or a refusal.

#![tactic(auto)]

ghost use Rattle.std.specs.Prelude.{◌≡◌};
ghost use Rattle.following.specs.Following.{at_begin, refused_step};
ghost use Rattle.following.specs.Steps.{listened_step};

use counters::resolution_of;
use programs::{past_first, place_following};
use rules::{Counters, ListenAnswer, Listened};
use turn_letters::letter;

// What is known between two records: the listener's record, and the number of the record to come (from 1; the first is `m,n`).
#[derive(Clone, Copy)]
pub struct Follower {
    pub counters: Counters,
    pub place: u64,
}

// What a record leads to: nothing to print (the first record), the line of a row, or the refusal that ends the output.
#[derive(Clone, Copy)]
pub enum Line {
    Nothing,
    Row {
        slot: u64,
        group: u8,
        letter: u8,
        urgent: u16,
        long: u16,
        resolution: u16,
    },
    Refusal {
        number: u8,
        place: u64,
    },
}

// One record followed: what is known after it, and its line.
#[derive(Clone, Copy)]
pub struct Step {
    pub follower: Follower,
    pub line: Line,
}

// Before the first record.
pub fn begin() -> Follower
    ensures { result ≡ at_begin }
{
    Follower {
        counters: counters::none(),
        place: 1,
    }
}

// A refusal, which ends the output; what is known stays as it was.
pub fn refused(f: Follower, number: u8) -> Step
    ensures { result ≡ refused_step f number }
{
    Step {
        follower: f,
        line: Line::Refusal {
            number,
            place: f.place,
        },
    }
}

// A row that was listened to: its refusal, or its line.
pub fn listened(f: Follower, heard: Listened) -> Step
    ensures { result ≡ listened_step f heard }
{
    match heard.answer {
        ListenAnswer::Refused(number) => refused(f, number),
        ListenAnswer::Went(turn) => {
            let before = f.counters;
            let after = heard.counters;
            let group = before.next;
            Step {
                follower: Follower {
                    counters: after,
                    place: place_following(f.place),
                },
                line: Line::Row {
                    slot: past_first(f.place),
                    group,
                    letter: letter(turn),
                    urgent: after.urgent,
                    long: after.long,
                    resolution: resolution_of(after, group),
                },
            }
        }
    }
}
