// A word's index among the 924 patterns, found from its two halves of six digits.

#![tactic(auto)]

ghost use Rattle.std.specs.Prelude.{◌≡◌};
ghost use Rattle.pattern.specs.Patterns.{index_of};

pub mod tables;

use tables::{BEFORE, RANK};

// The index of a word, and 924 of a word that is no pattern. A pattern's index is the number of patterns before it: those with a
// smaller upper half, and those with the same upper half and a smaller lower half, which has as many ones.
pub fn index_of(word: u16) -> u16
    ensures { result ≡ index_of word }
{
    if 4095 < word {
        return 924;
    }
    if u16::count_ones(word) != 6 {
        return 924;
    }
    let upper = (word / 64) as usize;
    let lower = (word % 64) as usize;
    BEFORE[upper] + RANK[lower]
}
