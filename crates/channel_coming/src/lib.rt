// Who sends in the coming slots, of a channel whose table the caller lends (paper 02, T-07): worked out by value on a copy of the table,
// and written to a list that the caller lends.

#![tactic(auto)]

ghost use Rattle.std.specs.Prelude.{◌≡◌, length};
ghost use Rattle.calls.specs.ByValue.{channel_of};
ghost use Rattle.coming_rules.specs.Coming.{coming_of, coming_told, coming_told_of};
ghost use Rattle.channel_coming.specs.Leaving.{leaves_coming};

use coming_rules::ComingAnswer;
use coming_slots::place_coming;
use lent_table::load;
use rules::{Station, WireRow};

// Who sends data in each of the coming slots, as many as the list has entries: the station's index, or 65,535 where nobody sends. The
// answer is after how many slots H and N are both 0. It is as if every row from now on were empty and every message outside H and N
// absent. 14: not 1 to 64 stations. 18: the table is not sound. 23: the list has not 1 to 1,024 entries. A refusal leaves the list as it
// was; table and wire are only read.
pub fn coming(table: &[Station], wire: [WireRow; 8], list: &mut [u16]) -> ComingAnswer
    ensures { (leaves_coming list.new result ≡ coming_of (channel_of table.now wire) list.old)
        × (coming_told result ≡ coming_told_of (channel_of table.now wire) (length list.old)) }
{
    let d = load(table);
    place_coming(d, wire, list)
}
