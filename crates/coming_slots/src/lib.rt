// Who sends in the coming slots (paper 02, T-07), on a table that was loaded: the call's number, and where it goes through the lent list
// filled and the slots until both transmission queues are empty. No slot is run.

#![tactic(auto)]

ghost use Rattle.std.specs.Prelude.{◌≡◌};
ghost use Rattle.calls.specs.ByValue.{array_channel};
ghost use Rattle.coming_rules.specs.Coming.{coming_of};

use coming_list::fill;
use coming_numbers::coming_number;
use coming_rules::ComingAnswer;
use free_slots::slots_until;
use rules::WireRow;
use served_places::served;
use sound_counters::table_counters;
use table::Loaded;

// The list is left as it was where the call is refused.
pub fn place_coming(d: Loaded, wire: [WireRow; 8], list: &mut [u16]) -> ComingAnswer
    ensures { (list.new ≡ (coming_of (array_channel d.stations d.count wire) list.old).list)
        × (result ≡ (coming_of (array_channel d.stations d.count wire) list.old).answer) }
{
    let stations = d.stations;
    let count = d.count;
    let number = coming_number(stations, count, wire, list.len());
    if number != 0 {
        return ComingAnswer::Refused(number);
    }
    let counters = table_counters(stations, count);
    let places = served(stations, count, counters.urgent, list.len());
    let calendar = counters.calendar;
    fill(list, calendar, counters.position, places);
    ComingAnswer::Until(slots_until(counters))
}
