// The call of a channel that sets its calendar, over the lent table.

#![tactic(auto)]

ghost use Rattle.std.specs.Prelude.{◌≡◌};
ghost use Rattle.channel_rules.specs.ChannelCalls.{channel_calendar_of};
ghost use Rattle.rules.specs.Numbers.{call_told};
ghost use Rattle.channel_rules.specs.Answered.{channel_calendar_told_of};
ghost use Rattle.calls.specs.ByValue.{channel_of};
ghost use Rattle.channel.specs.Leaving.{leaves};

use calls::CallReply;
use lent_table::{load, store};
use rules::{Station, WireRow};
use settings::place_calendar;

// Sets every station's calendar to these entries, and leaves the position. 14: not 1 to 64 stations. 18: the table is not sound. 20: an
// entry is neither free (65,535) nor the index of a station. 21: no entry is free. A refusal leaves table and wire as they were.
pub fn calendar(table: &mut [Station], wire: [WireRow; 8], entries: [u16; 24]) -> CallReply
    ensures { (leaves table.new result ≡ channel_calendar_of (channel_of table.old wire) entries)
        × (call_told result.answer ≡ channel_calendar_told_of (channel_of table.old wire) entries) }
{
    let d = load(table);
    let o = place_calendar(d, wire, entries);
    store(table, o.loaded);
    o.reply
}
