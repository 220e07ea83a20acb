// Stretches of places in a queue, and whether they cover it. They know no station.

#![tactic(auto)]

ghost use Rattle.std.specs.Prelude.{◌≡◌, eqb};
ghost use Rattle.std.specs.List.{list_all};
ghost use Rattle.listlaws.specs.Lists.{each_pair};
ghost use Rattle.stretches.specs.Stretches.{slots_of, apart, covered};

// A stretch of places: the first, and how many are left.
#[derive(Clone, Copy, Default)]
pub struct Stretch {
    pub first: u16,
    pub left: u8,
}

// Whether the slots left of all stretches are as many as the queue has places, which each stretch takes away from.
fn slots_fill(stretches: &[Stretch], queue: u16) -> bool
    ensures { result ≡ eqb (slots_of stretches.now) queue }
{
    let mut free = queue;
    for s in stretches {
        let left = u16::from(s.left);
        if free < left {
            return false;
        }
        free -= left;
    }
    free == 0
}

// Whether one of two stretches ends before the other begins.
fn two_apart(a: Stretch, b: Stretch) -> bool
    ensures { result ≡ apart a b }
{
    let a_first = u32::from(a.first);
    let b_first = u32::from(b.first);
    a_first + u32::from(a.left) <= b_first || b_first + u32::from(b.left) <= a_first
}

// Whether a stretch is apart from all of a list.
fn apart_from(a: Stretch, others: &[Stretch]) -> bool
    ensures { result ≡ list_all (apart a) others.now }
{
    others.iter().all(|b| two_apart(a, *b))
}

// Whether no two stretches overlap.
fn all_apart(stretches: &[Stretch]) -> bool
    ensures { result ≡ each_pair apart stretches.now }
{
    let mut rest = stretches;
    while let Some((first, others)) = rest.split_first() {
        if !apart_from(*first, others) {
            return false;
        }
        rest = others;
    }
    true
}

// Whether stretches cover a queue of so many places without overlap: as many slots left as places, no two stretches overlap.
pub fn covered(stretches: &[Stretch], queue: u16) -> bool
    ensures { result ≡ covered stretches.now queue }
{
    slots_fill(stretches, queue) && all_apart(stretches)
}
