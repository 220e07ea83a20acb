// Whether a message record is free, and whether its message is held. Each function is equal to its rule of crate `rules`.

#![tactic(auto)]

ghost use Rattle.std.specs.Prelude.{◌≡◌};
ghost use Rattle.rules.specs.Writing.{is_free, is_held};

use rules::Condition;

// Whether a record holds no message.
pub fn is_free(k: Condition) -> bool
    ensures { result ≡ is_free k }
{
    matches!(k, Condition::Free)
}

// Whether its message is held.
pub fn is_held(k: Condition) -> bool
    ensures { result ≡ is_held k }
{
    matches!(k, Condition::Held { .. })
}
