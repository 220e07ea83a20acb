// A slot of a channel that its caller holds by value.

#![tactic(auto)]

ghost use Rattle.std.specs.Prelude.{◌≡◌};
ghost use Rattle.rules.specs.Numbers.{call_told};
ghost use Rattle.channel_rules.specs.Answered.{channel_slot_told_of};
ghost use Rattle.local_channel.specs.Local.{lent_by, local_slot_of};

use lent_channel::slot_lent;
use local_channel::{LocalCalled, LocalChannel};

// A slot of the next group, by `channel_slot::slot` on the first `count` records.
pub fn slot(c: LocalChannel, picks: &[u8]) -> LocalCalled
    ensures { (result ≡ local_slot_of c picks.now)
        × (call_told result.answer ≡ channel_slot_told_of (lent_by c) picks.now) }
{
    let room = c.stations;
    let before = c.wire;
    let slotted = slot_lent(room, c.count, before, picks);
    let stations = slotted.stations;
    let slot_reply = slotted.reply;
    let wire = slot_reply.wire;
    let answer = slot_reply.answer;
    LocalCalled {
        channel: LocalChannel {
            stations,
            count: c.count,
            wire,
        },
        answer,
    }
}
