// Setting the calendar of a channel that its caller holds by value.

#![tactic(auto)]

ghost use Rattle.std.specs.Prelude.{◌≡◌};
ghost use Rattle.rules.specs.Numbers.{call_told};
ghost use Rattle.channel_rules.specs.Answered.{channel_calendar_told_of};
ghost use Rattle.local_channel.specs.Local.{lent_by, local_calendar_of};

use lent_channel::calendar_lent;
use local_channel::{LocalCalled, LocalChannel};

// Sets every station's calendar, by `channel_calendar::calendar` on the first `count` records.
pub fn calendar(c: LocalChannel, entries: [u16; 24]) -> LocalCalled
    ensures { (result ≡ local_calendar_of c entries)
        × (call_told result.answer ≡ channel_calendar_told_of (lent_by c) entries) }
{
    let room = c.stations;
    let before = c.wire;
    let set = calendar_lent(room, c.count, before, entries);
    let stations = set.stations;
    let set_reply = set.reply;
    let wire = set_reply.wire;
    let answer = set_reply.answer;
    LocalCalled {
        channel: LocalChannel {
            stations,
            count: c.count,
            wire,
        },
        answer,
    }
}
