// What a station must hear of itself in one minislot (refusal 12). Each test is equal to its rule of crate `rules`.

#![tactic(auto)]

ghost use Rattle.std.specs.Prelude.{◌≡◌};
ghost use Rattle.pattern.specs.Ones.{contains_ones};
ghost use Rattle.rules.specs.OwnHearing.{hears_here, hears_elsewhere, hears_at};

use minislot::Feedback;

#[tactic(auto, unfolding(pattern::specs::Ones::contains_ones))]
fn contains(word: u16, own: u16) -> bool
    ensures { result ≡ contains_ones word own }
{
    word & own == own
}

// In its own minislot: a Single of its own index and total, or a Collide that contains all ones of its word.
fn hears_here(index: u16, total: u8, word: u16, f: Feedback) -> bool
    ensures { result ≡ hears_here index total word f }
{
    match f {
        Feedback::Empty => false,
        Feedback::Single(i, c) => i == index && c == total,
        Feedback::Collide => contains(word, wording::word_of(index)),
    }
}

// Elsewhere: its own index as Single nowhere.
fn hears_elsewhere(index: u16, f: Feedback) -> bool
    ensures { result ≡ hears_elsewhere index f }
{
    match f {
        Feedback::Single(i, _) => i != index,
        _ => true,
    }
}

// Minislot j of a row, whose own is minislot `own`.
pub fn hears_at(index: u16, own: u8, total: u8, j: u8, word: u16, f: Feedback) -> bool
    ensures { result ≡ hears_at index own total j word f }
{
    if j == own {
        hears_here(index, total, word, f)
    } else {
        hears_elsewhere(index, f)
    }
}
