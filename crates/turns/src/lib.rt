// Step 2: the turn; and how far a queue falls. Each function is equal to its rule of crate `rules`.

#![tactic(auto)]

ghost use Rattle.std.specs.Prelude.{◌≡◌, ◌-◌};
ghost use Rattle.rules.specs.Calendars.{owner_in};
ghost use Rattle.rules.specs.Turns.{turn_of, is_open};

use calendar_entries::FREE;
use rules::{Places, Turn};

// Step 2, by the coming slot's entry in the calendar and the lengths after step 1.
pub fn turn(entry: u16, p: Places) -> Turn
    ensures { result ≡ turn_of (owner_in entry) p }
{
    if entry != FREE {
        return Turn::Owned { owner: entry };
    }
    if 0 < p.urgent {
        return Turn::Urgent;
    }
    if 0 < p.long {
        return Turn::Long;
    }
    if 0 < p.resolution {
        return Turn::Resolve;
    }
    Turn::Open
}

// Whether a turn is open, which is the group's next Open mark.
pub fn is_open(t: Turn) -> bool
    ensures { result ≡ is_open t }
{
    matches!(t, Turn::Open)
}

// One less, and 0 of 0: how a queue's length falls, and each place in it.
pub fn less_one(x: u16) -> u16
    ensures { result ≡ x - 1 }
{
    x.saturating_sub(1)
}
