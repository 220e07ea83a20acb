// A sound table (paper 01, "The channel"; paper 02, T-02 and T-04) as code, on a table and a wire by value: the clauses on stations, those
// on queues and wire, which go over the table's messages, two a station, drawn out once, and that on the calendar's owners.

#![tactic(auto)]

mod messages;

ghost use Rattle.std.specs.Prelude.{◌≡◌, take};
ghost use Rattle.channel_rules.specs.Soundness.{sound_table};
ghost use Rattle.soundness.specs.Clauses.{messages_sound};

use drawing::{Messages, least};
use messages::messages;
use rules::{Counters, Station, WireRow};
use sound_counters::table_counters;
use sound_owners::entries_on;
use sound_queues::long::long_sound;
use sound_queues::urgent::urgent_sound;
use sound_resolution::resolution_sound;
use sound_stations::stations_sound;
use sound_wire::wire_sound;

// The clauses on messages, for queues as long as the counters say.
#[tactic(auto, unfolding(crate::specs::Clauses::messages_sound))]
fn messages_sound(messages: &Messages, counters: &Counters, wire: &[WireRow; 8]) -> bool
    ensures { result ≡ messages_sound counters.now messages.now.items wire.now }
{
    urgent_sound(messages, counters.urgent)
        && long_sound(messages, counters.long)
        && resolution_sound(messages, &counters.resolution)
        && wire_sound(messages, wire)
}

// Whether a table of the first `count` stations, or of all 64 where there are no more, and a wire are sound. One test after the other, since
// what the next one goes over is drawn out between them.
pub fn sound(stations: [Station; 64], count: usize, wire: [WireRow; 8]) -> bool
    ensures { result ≡ sound_table (take count stations) wire }
{
    let n = least(count, 64);
    if !stations_sound(&stations[..n]) {
        return false;
    }
    let list = messages(&stations[..n]);
    let counters = table_counters(stations, n);
    if !messages_sound(&list, &counters, &wire) {
        return false;
    }
    entries_on(stations, n, counters.calendar)
}
