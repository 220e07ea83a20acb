// The number of a start of a channel, in order of checking.

#![tactic(auto)]

ghost use Rattle.std.specs.Prelude.{◌≡◌};
ghost use Rattle.std.specs.List.{list_all};
ghost use Rattle.rules.specs.StationCalls.{is_index};
ghost use Rattle.channel_rules.specs.ChannelCalls.{channel_start_number_of};

use calls::has_stations;
use conditions::is_index;
use counters::in_ranges;
use places::distinct;

// Whether every number is an index of a pattern.
fn all_indexes(indexes: &[u16]) -> bool
    ensures { result ≡ list_all is_index indexes.now }
{
    indexes.iter().all(|index| is_index(*index))
}

// The number of a start on a table of `count` records, 0 where it goes through: 5, 14, 8, 15.
#[tactic(auto, unfolding(channel_rules::specs::ChannelCalls::channel_start_number_of))]
pub fn start_number(count: usize, m: u8, n: u8, indexes: &[u16]) -> u8
    ensures { result ≡ channel_start_number_of count m n indexes.now }
{
    if !in_ranges(m, n) {
        return 5;
    }
    if !has_stations(count) || indexes.len() != count {
        return 14;
    }
    if !all_indexes(indexes) {
        return 8;
    }
    if distinct(indexes) { 0 } else { 15 }
}
