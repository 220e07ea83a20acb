// The calls that write one of the message records of a station by value.

#![tactic(auto)]

ghost use Rattle.std.specs.Prelude.{◌≡◌};
ghost use Rattle.rules.specs.Writing.{refused_write, write_of};
ghost use Rattle.rules.specs.Numbers.{write_told};
ghost use Rattle.rules.specs.Answered.{write_told_of};

use conditions::within;
use rewriting::rewrite;
use rules::{Station, StationWritten, WriteAnswer, Writing};
use verdicts::judge;

fn refused_write(s: Station, number: u8) -> StationWritten
    ensures { result ≡ refused_write s number }
{
    StationWritten {
        answer: WriteAnswer::Refused(number),
        station: s,
    }
}

// An offer, a hold, a commit or a withdrawal of a station. 18: the record is outside its limits. An offer and a hold: 10, 0 bytes or more
// than 12,240; 9, the message record that the length picks, up to 48 bytes the short one, is in use. A commit and a withdrawal: 22, the
// message record that is named isn't held. A refusal leaves the record as it was.
pub fn write(s: Station, w: Writing) -> StationWritten
    ensures left { result ≡ write_of s w }
    ensures told { write_told result.answer ≡ write_told_of s w }
{
    if !within(s) {
        return refused_write(s, 18);
    }
    let verdict = judge(s, w);
    if verdict.number != 0 {
        return refused_write(s, verdict.number);
    }
    StationWritten {
        answer: WriteAnswer::Total(verdict.total),
        station: rewrite(s, w, verdict.total),
    }
}
