// What the tests of a table draw out of it: the messages of its stations, two of each of 64, and how far a loop over a table goes.

#![tactic(auto)]

ghost use Rattle.std.specs.Prelude.{◌≡◌, min};

use arrayvec::ArrayVec;
use rules::TableMessage;

// The groups that a record of counters and the wire have room for.
pub const MOST_GROUPS: usize = 8;

// The messages of a table, and the places that they hold in a queue: two for each of 64 stations at most, in memory of that size.
pub type Messages = ArrayVec<TableMessage, 128>;

pub type Places = ArrayVec<u16, 128>;

// The lesser of two numbers: how far a loop over a table goes, which has no more records than its array.
pub fn least(a: usize, b: usize) -> usize
    ensures { result ≡ min a b }
{
    a.min(b)
}
