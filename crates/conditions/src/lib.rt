// The limits of a station's record, for the station and the channel. Each test is equal to its rule of crate `rules`.

#![tactic(auto)]

ghost use Rattle.std.specs.Prelude.{◌≡◌};
ghost use Rattle.rules.specs.StationCalls.{no_station, is_index};
ghost use Rattle.rules.specs.StationLimits.{station_within, messages_within};

use condition_limits::condition_within;
use record_limits::{long_within, short_within};
use records_apart::records_apart;
use rules::{Condition, Counters, MessageRecord, Station};

// The greatest index of a station (paper 01, "The box").
const INDEX_LIMIT: u16 = 923;

// Whether a number is a station's index.
pub fn is_index(i: u16) -> bool
    ensures { result ≡ is_index i }
{
    i <= INDEX_LIMIT
}

// What stands for a station where a start is refused: all zero, outside the limits.
pub fn no_station() -> Station
    ensures { result ≡ no_station }
{
    let none = MessageRecord {
        condition: Condition::Free,
    };
    Station {
        counters: counters::none(),
        index: 0,
        short: none,
        long: none,
    }
}

// Whether a station's record is within its limits.
#[tactic(auto, unfolding(rules::specs::StationLimits::station_within))]
pub fn within(s: Station) -> bool
    ensures { result ≡ station_within s }
{
    counter_limits::within(s.counters)
        && is_index(s.index)
        && messages_within(s.counters, s.short.condition, s.long.condition)
}

// Whether the conditions of a station's two records are within their limits, by the counters that it keeps.
#[tactic(auto, unfolding(rules::specs::StationLimits::messages_within))]
pub fn messages_within(c: Counters, short: Condition, long: Condition) -> bool
    ensures { result ≡ messages_within c short long }
{
    condition_within(c, short)
        && short_within(short)
        && condition_within(c, long)
        && long_within(long)
        && records_apart(short, long)
}
