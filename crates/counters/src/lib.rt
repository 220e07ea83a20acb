// The counters that every station keeps: their ranges, their start, and what stands in their arrays for a group. Each function is equal to its
// rule of crate `rules`.

#![tactic(auto)]

ghost use Rattle.std.specs.Prelude.{◌≡◌, ◌-◌, get_or};
ghost use Rattle.rules.specs.Starting.{in_ranges, start_counters, no_counters};

use calendar_entries::FREE;
use rules::Counters;

// Whether m and n are in their ranges.
pub fn in_ranges(m: u8, n: u8) -> bool
    ensures { result ≡ in_ranges m n }
{
    2 <= m && m <= 8 && 1 <= n && n <= 8
}

// The counters at the start, m and n being in their ranges.
pub fn start(m: u8, n: u8) -> Counters
    ensures { result ≡ start_counters m n }
{
    Counters {
        minislots: m,
        groups: n,
        next: 1,
        urgent: 0,
        long: 0,
        resolution: [0u16; 8],
        opened: [true; 8],
        calendar: [FREE; 24],
        position: 0,
    }
}

// What stands for a record where a start is refused.
pub fn none() -> Counters
    ensures { result ≡ no_counters }
{
    Counters {
        minislots: 0,
        groups: 0,
        next: 0,
        urgent: 0,
        long: 0,
        resolution: [0u16; 8],
        opened: [false; 8],
        calendar: [0u16; 24],
        position: 0,
    }
}

// The place of a group, or of a minislot, in an array with an element for each: number 0, which is none, has the first one's.
pub fn place_of(number: u8) -> usize
    ensures { result ≡ number - 1 }
{
    usize::from(number.saturating_sub(1))
}

// RQ of a group, 0 beyond the eight.
pub fn resolution_of(c: Counters, group: u8) -> u16
    ensures { result ≡ get_or c.resolution (group - 1) 0 }
{
    let g = place_of(group);
    if g < 8 { c.resolution[g] } else { 0 }
}
