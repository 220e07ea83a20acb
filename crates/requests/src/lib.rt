// Requests: what one carries, how several join in a minislot of a row, and what is read of them together.

#![tactic(auto)]

ghost use Rattle.std.specs.Prelude.{◌≡◌};
ghost use Rattle.requests.specs.Together.{carries, joined, placed};

use minislot::Minislot;

// What a request carries: the station's word, and its message's total as the count.
pub fn carry(index: u16, total: u8) -> Minislot
    ensures { result ≡ carries (record { index = index; total = total }) }
{
    Minislot {
        word: wording::word_of(index),
        count: total,
    }
}

// Two senders' words and counts together.
pub fn join(a: Minislot, b: Minislot) -> Minislot
    ensures { result ≡ joined a b }
{
    Minislot {
        word: a.word | b.word,
        count: a.count | b.count,
    }
}

// A request joins its minislot of a row, counted from 1; 0 for none, and past the eighth there is none.
pub fn place(minislot: u8, x: Minislot, row: [Minislot; 8]) -> [Minislot; 8]
    ensures { result ≡ placed minislot x row }
{
    let mut after = row;
    if minislot < 1 {
        return after;
    }
    if 8 < minislot {
        return after;
    }
    let j = (minislot - 1) as usize;
    after[j] = join(row[j], x);
    after
}
