// A list of coming senders, filled slot by slot (paper 02, T-07): an owned slot has its owner, and each free one whoever has the next
// place of the two transmission queues.

#![tactic(auto)]

ghost use Rattle.std.specs.Prelude.{◌≡◌, ℕ, ◌≤◌, length, get_or};
ghost use Rattle.coming_rules.specs.Coming.{nobody};
ghost use Rattle.coming_rules.specs.Planned.{planned_list};

use calendar_entries::FREE;
use calendars::next_position;

// Fills the list from the slot at a position on, by who is served at each place. An owned slot uses up no place.
pub fn fill(list: &mut [u16], calendar: [u16; 24], position: u8, served: [u16; 1024])
    requires { (position ≤ 23) × (length list.old ≤ 1024) }
    ensures { list.new ≡ planned_list calendar position (λ (k : ℕ). get_or served k nobody) (length list.old) }
{
    let mut p = position;
    let mut place: usize = 0;
    let mut i: usize = 0;
    while i < list.len() {
        let mut sender = calendar[p as usize];
        let mut used: usize = 0;
        if sender == FREE {
            sender = served[place];
            used = 1;
        }
        list[i] = sender;
        place += used;
        p = next_position(p);
        i += 1;
    }
}
