// What a station must hear of itself in a row (refusal 12). Each function is equal to its rule of crate `rules`.

#![tactic(auto)]

ghost use Rattle.std.specs.Prelude.{◌≡◌, min, take};
ghost use Rattle.rows.specs.Row.{feedback_in};
ghost use Rattle.rules.specs.OwnHearing.{own_minislot, own_total, listens, hears_itself};

use minislot::MinislotFeedback;
use minislot_hearing::hears_at;
use rules::{Condition, Station};

// The minislot where a message makes its station listen for itself in group g, 0 for none.
fn own_minislot(g: u8, k: Condition) -> u8
    ensures { result ≡ own_minislot g k }
{
    match k {
        Condition::Asked {
            group,
            minislot,
            ..
        } if group == g => minislot,
        _ => 0,
    }
}

// The total that it listens for.
fn own_total(k: Condition) -> u8
    ensures { result ≡ own_total k }
{
    match k {
        Condition::Asked { total, .. } => total,
        _ => 0,
    }
}

// The message that a station listens for in group g: the short one where it is asked there, else the long one.
fn listened(g: u8, s: Station) -> Condition
    ensures { result ≡ listens g s }
{
    if own_minislot(g, s.short.condition) == 0 {
        s.long.condition
    } else {
        s.short.condition
    }
}

// How many of m minislots are heard: those that have a word, and no more than a row holds.
fn heard(m: u8, words: usize) -> usize
    ensures { result ≡ min (min m words) 8 }
{
    usize::from(m).min(words).min(8)
}

// What a station must hear of itself in a row: its words, and what they read as.
pub fn hears_itself(s: Station, words: &[u16], row: [MinislotFeedback; 8]) -> bool
    ensures { result ≡ hears_itself s words.now (take s.counters.minislots (feedback_in row)) }
{
    let k = listened(s.counters.next, s);
    let own = own_minislot(s.counters.next, k);
    let total = own_total(k);
    for i in 0..heard(s.counters.minislots, words.len()) {
        if !hears_at(s.index, own, total, i as u8 + 1, words[i], row[i].feedback) {
            return false;
        }
    }
    true
}
