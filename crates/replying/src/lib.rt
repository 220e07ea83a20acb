// What a channel's slot comes back with, once it is judged and its stations have sent: the answer, and the wire with the group's new row.

#![tactic(auto)]

ghost use Rattle.std.specs.Prelude.{◌≡◌, ◌-◌, ◌≤◌, set};
ghost use Rattle.channel_rules.specs.ChannelCalls.{delivered_now};
ghost use Rattle.replying.specs.Replying.{reply_of, Answerable};

use calls::{CallReply, Judged, refuse};
use counters::place_of;
use minislot::Minislot;
use rules::{Answer, Sent, Turn, WireRow};

// The slots delivered as they are sent. A stream is in no total.
fn delivered_now(t: Turn, senders: u8) -> u8
    ensures value { result ≡ delivered_now t senders }
    ensures few { result ≤ senders }
{
    match t {
        Turn::Urgent | Turn::Long => senders,
        _ => 0,
    }
}

// The wire with a group's new row, and as it was for a group beyond the eight.
fn put_row(wire: [WireRow; 8], group: u8, minislots: [Minislot; 8]) -> [WireRow; 8]
    ensures { result ≡ set wire (group - 1) (record { minislots = minislots }) }
{
    let g = place_of(group);
    if 8 <= g {
        return wire;
    }
    let mut after = wire;
    after[g] = WireRow { minislots };
    after
}

// The reply of a slot that was judged, and whose stations have sent this.
#[tactic(auto, unfolding(crate::specs::Replying::reply_of))]
pub fn reply(judged: Judged, wire: [WireRow; 8], sent: Sent) -> CallReply
    requires { Answerable judged sent }
    ensures { result ≡ reply_of judged wire sent }
{
    if judged.number != 0 {
        return refuse(wire, judged.number);
    }
    let turn = judged.outcome.turn;
    CallReply {
        answer: Answer::Went {
            turn,
            senders: sent.senders,
            index: sent.index,
            segment: sent.segment,
            delivered: judged.outcome.delivered + delivered_now(turn, sent.senders),
        },
        wire: put_row(wire, judged.outcome.group, sent.minislots),
    }
}
