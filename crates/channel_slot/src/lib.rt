// A slot of a channel, over the lent table.

#![tactic(auto)]

ghost use Rattle.std.specs.Prelude.{◌≡◌};
ghost use Rattle.channel_rules.specs.ChannelCalls.{channel_slot_of};
ghost use Rattle.rules.specs.Numbers.{call_told};
ghost use Rattle.channel_rules.specs.Answered.{channel_slot_told_of};
ghost use Rattle.calls.specs.ByValue.{channel_of};
ghost use Rattle.channel.specs.Leaving.{leaves};

use calls::CallReply;
use lent_table::load;
use pass::step_all;
use replying::reply;
use rules::{Station, WireRow};
use slots::judge;

// A slot of the next group. 14: not 1 to 64 stations. 18: the table is not sound. 17: not one pick a station. 11: a pick outside 1 to m.
// 7: a counter would pass its limit in step 1. A refusal leaves table and wire as they were.
pub fn slot(table: &mut [Station], wire: [WireRow; 8], picks: &[u8]) -> CallReply
    ensures { (leaves table.new result ≡ channel_slot_of (channel_of table.old wire) picks.now)
        × (call_told result.answer ≡ channel_slot_told_of (channel_of table.old wire) picks.now) }
{
    let d = load(table);
    let j = judge(d, wire, picks);
    let sent = step_all(table, picks, j.outcome, j.steps);
    reply(j, wire, sent)
}
