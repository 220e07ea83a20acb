// The first record of a recording: the start of the listener that its two numbers lead to, or a refusal.

#![tactic(auto)]

ghost use Rattle.std.specs.Prelude.{◌≡◌};
ghost use Rattle.rules.specs.Starting.{start_of};
ghost use Rattle.following.specs.Steps.{started_step};

use following::{Follower, Line, Step, refused};
use listener::start;
use programs::place_following;
use rules::StartAnswer;

// The first record's two numbers. 5: one is outside its range.
pub fn start_with(f: Follower, m: u32, n: u32) -> Step
    ensures { result ≡ started_step f (start_of m n) }
{
    if 8 < m || 8 < n {
        return refused(f, 5);
    }
    let started = start(m as u8, n as u8);
    match started.answer {
        StartAnswer::Refused(number) => refused(f, number),
        StartAnswer::Ready => Step {
            follower: Follower {
                counters: started.counters,
                place: place_following(f.place),
            },
            line: Line::Nothing,
        },
    }
}
