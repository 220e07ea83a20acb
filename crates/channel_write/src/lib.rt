// The call of a channel that writes one message record of one station, over the lent table.

#![tactic(auto)]

ghost use Rattle.std.specs.Prelude.{◌≡◌};
ghost use Rattle.channel_rules.specs.ChannelCalls.{channel_write_of};
ghost use Rattle.rules.specs.Numbers.{call_told};
ghost use Rattle.channel_rules.specs.Answered.{channel_write_told_of};
ghost use Rattle.calls.specs.ByValue.{channel_of};
ghost use Rattle.channel.specs.Leaving.{leaves};

use calls::CallReply;
use lent_table::{load, store};
use rules::{Station, WireRow, Writing};
use writes::place_write;

// Writes one message record of the station of an index: an offer, a hold, a commit or a withdrawal. 14: not 1 to 64 stations. 18: the
// table is not sound. 16: no station of the index. An offer and a hold: 10, 0 bytes or more than 12,240; 9, the message record that the
// length picks, up to 48 bytes the short one, is in use. A commit and a withdrawal: 22, the message record that is named isn't held. A
// refusal leaves table and wire as they were; the wire is never altered.
pub fn write(table: &mut [Station], wire: [WireRow; 8], index: u16, w: Writing) -> CallReply
    ensures { (leaves table.new result ≡ channel_write_of (channel_of table.old wire) index w)
        × (call_told result.answer ≡ channel_write_told_of (channel_of table.old wire) index w) }
{
    let d = load(table);
    let o = place_write(d, wire, index, w);
    store(table, o.loaded);
    o.reply
}
