// The 924 station patterns (paper: the twelve-bit words with exactly six ones), with the laws of them and of an OR's ones.

#![tactic(auto)]

ghost use Rattle.std.specs.Prelude.{◌≡◌};
ghost use Rattle.pattern.specs.Patterns.{patterns};

mod tables;

use tables::WORDS;

// The whole table, for whoever looks up many words: made once, then lent.
pub fn words() -> [u16; 924]
    ensures { result ≡ patterns }
{
    WORDS
}
