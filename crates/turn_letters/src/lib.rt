// The letter that stands for a turn in a line.

#![tactic(auto)]

ghost use Rattle.std.specs.Prelude.{◌≡◌};
ghost use Rattle.turn_letters.specs.Letters.{letter_of};

use rules::Turn;

pub fn letter(turn: Turn) -> u8
    ensures { result ≡ letter_of turn }
{
    match turn {
        Turn::Owned { .. } => b'w',
        Turn::Urgent => b'u',
        Turn::Long => b'l',
        Turn::Resolve => b'r',
        Turn::Open => b'o',
    }
}
