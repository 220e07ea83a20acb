// How long both transmission queues last (paper 02, T-07), in closed form: the slots of the next round of the calendar that no stream owns
// are collected once, and the slot that serves the last place is told from them, however many places there are.

#![tactic(auto)]

ghost use Rattle.std.specs.Prelude.{◌≡◌, true, ◌+◌, ◌≤◌};
ghost use Rattle.rules.specs.Calendars.{calendar_within};
ghost use Rattle.coming_rules.specs.Planned.{planned_until};
ghost use Rattle.free_slots.specs.Round.{free_round};

use calendar_entries::{FREE, POSITIONS};
use calendars::next_position;
use rules::Counters;

// Which of the next 24 slots no stream owns, counted from 0: how many there are, and their numbers in order (0 where there are fewer).
#[derive(Clone, Copy)]
pub struct FreeSlots {
    pub count: usize,
    pub slots: [u8; 24],
}

// Of a calendar whose next slot has this position.
pub fn free_slots(calendar: [u16; 24], position: u8) -> FreeSlots
    requires { position ≤ 23 }
    ensures { result ≡ free_round calendar position }
{
    let mut slots = [0u8; 24];
    let mut count: usize = 0;
    let mut p = position;
    for i in 0..POSITIONS {
        if calendar[p as usize] == FREE {
            slots[count] = i as u8;
            count += 1;
        }
        p = next_position(p);
    }
    FreeSlots { count, slots }
}

// The number of slots until H and N are both 0: whole rounds, and of the last one the slots up to the one that serves the last place.
pub fn slots_until(c: Counters) -> u32
    requires { calendar_within c ≡ true }
    ensures { result ≡ planned_until c.calendar c.position (c.urgent + c.long) }
{
    let places = c.urgent as usize + c.long as usize;
    if places == 0 {
        return 0;
    }
    let free = free_slots(c.calendar, c.position);
    let before = places - 1;
    let rounds = before / free.count;
    let last = free.slots[before % free.count] as usize;
    (POSITIONS * rounds + last + 1) as u32
}
