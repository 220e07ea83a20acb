// The channel: a table of stations that the caller lends, and a wire passed beside it; its start. The calls that write a message record of
// a station, its calendar and its slots stand in crates of their own. What a call comes to is worked out by value on a copy of the table;
// the functions over the lent table are few and thin.

#![tactic(auto)]

ghost use Rattle.std.specs.Prelude.{◌≡◌};
ghost use Rattle.channel_rules.specs.ChannelCalls.{channel_start_of};
ghost use Rattle.rules.specs.Numbers.{start_told};
ghost use Rattle.channel_rules.specs.Answered.{channel_start_told_of};
ghost use Rattle.calls.specs.ByValue.{channel_of};
ghost use Rattle.channel.specs.Leaving.{leaves_started};

use calls::StartReply;
use lent_table::store;
use rules::{Station, WireRow};
use starts::begin;

// Starts a channel on the lent table: station k gets the k-th index. 5: m or n outside its range. 14: not 1 to 64 stations, or not one
// index a station. 8: an index above 923. 15: an index twice. A refusal leaves table and wire as they were.
pub fn start(table: &mut [Station], wire: [WireRow; 8], m: u8, n: u8, indexes: &[u16]) -> StartReply
    ensures { (leaves_started table.new result ≡ channel_start_of (channel_of table.old wire) m n indexes.now)
        × (start_told result.answer ≡ channel_start_told_of (channel_of table.old wire) m n indexes.now) }
{
    let b = begin(table.len(), wire, m, n, indexes);
    store(table, b.loaded);
    b.reply
}
