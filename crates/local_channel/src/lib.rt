// A channel that its caller holds by value: room for its records, and the wire; and its start. Its other calls stand in crates of
// their own.

#![tactic(auto)]

ghost use Rattle.std.specs.Prelude.{◌≡◌};
ghost use Rattle.rules.specs.Numbers.{start_told};
ghost use Rattle.channel_rules.specs.Answered.{channel_start_told_of};
ghost use Rattle.local_channel.specs.Local.{lent_by, local_start_of};

use lent_channel::start_lent;
use rules::{Answer, StartAnswer, Station, WireRow};

// Room for 65 records, of which the first `count` are lent to the channel's calls, and the wire. A count above 65 lends all of them.
#[derive(Clone, Copy)]
pub struct LocalChannel {
    pub stations: [Station; 65],
    pub count: usize,
    pub wire: [WireRow; 8],
}

// The channel after a start, and the start's answer.
#[derive(Clone, Copy)]
pub struct LocalStarted {
    pub channel: LocalChannel,
    pub answer: StartAnswer,
}

// The channel after a writing, a calendar or a slot, and its answer.
#[derive(Clone, Copy)]
pub struct LocalCalled {
    pub channel: LocalChannel,
    pub answer: Answer,
}

// Starts the channel, by `channel::start` on the first `count` records.
pub fn start(c: LocalChannel, m: u8, n: u8, indexes: &[u16]) -> LocalStarted
    ensures { (result ≡ local_start_of c m n indexes.now)
        × (start_told result.answer ≡ channel_start_told_of (lent_by c) m n indexes.now) }
{
    let room = c.stations;
    let before = c.wire;
    let started = start_lent(room, c.count, before, m, n, indexes);
    let stations = started.stations;
    let start_reply = started.reply;
    let wire = start_reply.wire;
    let answer = start_reply.answer;
    LocalStarted {
        channel: LocalChannel {
            stations,
            count: c.count,
            wire,
        },
        answer,
    }
}
