// Steps 4 and 5 of the counters: what the turn leaves of the lengths. Each function is equal to its rule of crate `rules`. What they
// require is checked by the calls above them.

#![tactic(auto)]

ghost use Rattle.std.specs.Prelude.{◌≡◌, false, ◌≤◌};
ghost use Rattle.rules.specs.Queueing.{passes};
ghost use Rattle.rules.specs.Falling.{fallen, following, urgent_falls, long_falls};
ghost use Rattle.falling.specs.Bounds.{ComingSlot};

use calendars::{coming, next_position};
use rules::{Counters, Places, Turn};
use turns::{is_open, less_one, turn};

fn urgent_falls(t: Turn, h: u16) -> u16
    ensures { result ≡ urgent_falls t h }
{
    match t {
        Turn::Urgent => less_one(h),
        _ => h,
    }
}

fn long_falls(t: Turn, n: u16) -> u16
    ensures { result ≡ long_falls t n }
{
    match t {
        Turn::Long => less_one(n),
        _ => n,
    }
}

// The group after g of n.
fn next_group(n: u8, g: u8) -> u8
    requires { g ≤ 8 }
    ensures { result ≡ following n g }
{
    if g == n { 1 } else { g + 1 }
}

// Steps 4 and 5 of the counters, by the lengths after step 1.
pub fn fall(c: Counters, p: Places) -> Counters
    requires { ComingSlot c × (passes p ≡ false) }
    ensures { result ≡ fallen c p }
{
    let h = p.urgent as u16;
    let n = p.long as u16;
    let r = p.resolution as u16;
    let t = turn(coming(c), p);
    let g = (c.next - 1) as usize;
    let mut resolution = c.resolution;
    let mut opened = c.opened;
    resolution[g] = less_one(r);
    opened[g] = is_open(t);
    Counters {
        next: next_group(c.groups, c.next),
        urgent: urgent_falls(t, h),
        long: long_falls(t, n),
        resolution,
        opened,
        position: next_position(c.position),
        ..c
    }
}
