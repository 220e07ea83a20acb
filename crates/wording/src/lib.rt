// An index's word among the 924 patterns, put together from its two halves of six digits.

#![tactic(auto)]

ghost use Rattle.std.specs.Prelude.{◌≡◌, ◌≤◌, ◌<◌, get_or};
ghost use Rattle.pattern.specs.Patterns.{word_of};
ghost use Rattle.indexing.specs.Halves.{patterns_before};
ghost use Rattle.wording.specs.Lowers.{reached_of, lowers, place_of_lower};

mod tables;

use indexing::tables::BEFORE;
use tables::{FIRST, LOWER};

// The word of an index, and 0 of an index above 923.
pub fn word_of(index: u16) -> u16
    ensures { result ≡ word_of index }
{
    if 923 < index {
        return 0;
    }
    word_at(&BEFORE, index)
}

// A pattern's two halves: the upper half is the last one that has no more patterns before it than the index; the lower half follows from
// the pattern's rank among those with that upper half.
fn word_at(before: &[u16; 64], index: u16) -> u16
    requires { (before.now ≡ patterns_before) × (index < 924) }
    ensures { result ≡ word_of index }
{
    let upper = reached(before, index) - 1;
    let rank = index - before[upper as usize];
    upper * 64 + lower_of(upper, rank)
}

// How many of the 64 upper halves have no more patterns before them than the index. A plain loop: `filter` and `count` take fifteen times
// as many instructions.
fn reached(before: &[u16; 64], index: u16) -> u16
    requires { before.now ≡ patterns_before }
    ensures { (result ≡ reached_of before.now index) × (result ≤ 64) }
{
    let mut n: u16 = 0;
    for b in before {
        if *b <= index {
            n += 1;
        }
    }
    n
}

// The lower half with a rank among those that go with an upper half: with as many ones as that lacks of six.
fn lower_of(upper: u16, rank: u16) -> u16
    requires { (upper < 64) × (place_of_lower upper rank < 64) }
    ensures { result ≡ get_or lowers (place_of_lower upper rank) 0 }
{
    let first = FIRST[u16::count_ones(upper) as usize];
    LOWER[(first + rank) as usize] as u16
}
