// Writing a message record of a channel that its caller holds by value: an offer, a hold, a commit or a withdrawal.

#![tactic(auto)]

ghost use Rattle.std.specs.Prelude.{◌≡◌};
ghost use Rattle.rules.specs.Numbers.{call_told};
ghost use Rattle.channel_rules.specs.Answered.{channel_write_told_of};
ghost use Rattle.local_channel.specs.Local.{lent_by, local_write_of};

use lent_channel::write_lent;
use local_channel::{LocalCalled, LocalChannel};
use rules::Writing;

// Writes a message record of the station of an index: an offer, a hold, a commit or a withdrawal, by `channel_write::write` on the
// first `count` records.
pub fn write(c: LocalChannel, index: u16, w: Writing) -> LocalCalled
    ensures { (result ≡ local_write_of c index w)
        × (call_told result.answer ≡ channel_write_told_of (lent_by c) index w) }
{
    let room = c.stations;
    let before = c.wire;
    let written = write_lent(room, c.count, before, index, w);
    let stations = written.stations;
    let write_reply = written.reply;
    let wire = write_reply.wire;
    let answer = write_reply.answer;
    LocalCalled {
        channel: LocalChannel {
            stations,
            count: c.count,
            wire,
        },
        answer,
    }
}
