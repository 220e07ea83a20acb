// Tests on lists of places in a queue: each place taken twice or more. They know no station.

#![tactic(auto)]

ghost use Rattle.std.specs.Prelude.{◌≡◌, eqb};
ghost use Rattle.listlaws.specs.Lists.{count_of};
ghost use Rattle.crowds.specs.Crowds.{crowded};

// How often a list names a place. A plain loop: `filter` and `count` take nearly three times as many instructions.
fn times(x: u16, places: &[u16]) -> usize
    ensures { result ≡ count_of (eqb x) places.now }
{
    let mut n: usize = 0;
    for y in places {
        if x == *y {
            n += 1;
        }
    }
    n
}

// Whether a queue of so many places has each taken twice or more, from the last place down: where a list is too short for the queue, some
// place soon is not.
pub fn crowded(places: &[u16], queue: u16) -> bool
    ensures { result ≡ crowded places.now queue }
{
    for passed in 0..queue {
        if times(queue - passed, places) < 2 {
            return false;
        }
    }
    true
}
