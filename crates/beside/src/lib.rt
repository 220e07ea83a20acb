// What the two messages of a station do in a slot, in which it asks for at most one of them. Each function is equal to its rule of crate
// `rules`.

#![tactic(auto)]

ghost use Rattle.std.specs.Prelude.{◌≡◌, ◌&&◌, [], ◌∷◌};
ghost use Rattle.rules.specs.Stepping.{is_fresh, acts_of, acts_beside};

use idling::{idle, stay};
use rules::{Acted, Condition, Outcome};
use steps::acts;

fn is_fresh(k: Condition) -> bool
    ensures { result ≡ is_fresh k }
{
    matches!(k, Condition::Fresh { .. })
}

fn both_fresh(short: Condition, long: Condition) -> bool
    ensures { result ≡ is_fresh short && is_fresh long }
{
    is_fresh(short) && is_fresh(long)
}

// What the two messages do, first the short one: of two fresh ones only that one asks. One after the other in a loop, so that `acts` is
// laid out once, where the slot's outcome need not be copied for it.
pub fn acts_both(o: Outcome, short: Condition, long: Condition, pick: u8) -> [Acted; 2]
    ensures { result ≡ acts_of o short pick ∷ acts_beside o short long pick ∷ [] }
{
    let messages = [short, long];
    let most = if both_fresh(short, long) { 1 } else { 2 };
    let mut after = [stay(short), stay(long)];
    for i in 0..most {
        let k = messages[i];
        if !idle(o.turn, o.resolution, o.group, k) {
            after[i] = acts(o, k, pick);
        }
    }
    after
}
