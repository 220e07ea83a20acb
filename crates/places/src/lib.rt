// Tests on lists of numbers, and of places in a queue: none of them twice, each place taken once. They know no station, so any protocol
// whose queues have places can use them.

#![tactic(auto)]

ghost use Rattle.std.specs.Prelude.{◌≡◌};
ghost use Rattle.std.specs.List.{list_all};
ghost use Rattle.listlaws.specs.Lists.{each_pair};
ghost use Rattle.places.specs.Places.{differ, taken_once};

// Whether a number is none of a list.
pub fn differs(x: u16, numbers: &[u16]) -> bool
    ensures { result ≡ list_all (differ x) numbers.now }
{
    numbers.iter().all(|y| x != *y)
}

// Whether no two numbers of a list are equal.
pub fn distinct(numbers: &[u16]) -> bool
    ensures { result ≡ each_pair differ numbers.now }
{
    for (i, x) in numbers.iter().enumerate() {
        if !differs(*x, &numbers[i + 1..]) {
            return false;
        }
    }
    true
}

// Whether a queue of so many places has each taken once: as many taken, no two the same.
pub fn taken_once(places: &[u16], queue: u16) -> bool
    ensures { result ≡ taken_once places.now queue }
{
    places.len() == queue as usize && distinct(places)
}
