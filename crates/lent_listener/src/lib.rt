// The listener with its record lent for each row that is heard.

#![tactic(auto)]

ghost use Rattle.std.specs.Prelude.{◌≡◌};
ghost use Rattle.rules.specs.Listening.{listening_of};
ghost use Rattle.rules.specs.Numbers.{listen_told};
ghost use Rattle.rules.specs.Answered.{listen_told_of};
ghost use Rattle.lent_listener.specs.Lent.{leaves};

use listening::listen;
use rules::{Counters, ListenAnswer};

// Listens to a row with the record lent: it is left as `listen` gives it back, and the answer is its answer.
pub fn listen_lent(c: &mut Counters, words: &[u16], counts: &[u8]) -> ListenAnswer
    ensures { (leaves result c.new ≡ listening_of c.old words.now counts.now)
        × (listen_told result ≡ listen_told_of c.old words.now counts.now) }
{
    let heard = listen(*c, words, counts);
    *c = heard.counters;
    heard.answer
}
