// A run of a program between two calls of the system: a round reads what the input buffer holds and says what the program has to do next.

#![tactic(auto)]

ghost use Rattle.std.specs.Prelude.{◌≡◌};
ghost use Rattle.standing.specs.Standing.{standing};
ghost use Rattle.round_steps.specs.Rounds.{round_of};

use buffers::count_first;
use programs::Program;
use round_steps::after_round;
use standing::Run;
use stream::buffered;

// A run after a round, and what is known then.
#[derive(Clone, Copy)]
pub struct Rounded<S> {
    pub state: S,
    pub run: Run,
}

// One round: the records that the input buffer holds whole are read, as long as the output buffer has room for the lines of another. Where
// more bytes are needed, those of the record that has begun go to the front of the input buffer.
pub fn round<P: Program>(
    state: P::State,
    s: Run,
    input: &mut [u8],
    out: &mut [u8],
) -> Rounded<P::State>
    ensures input { input.new ≡ (round_of P.program (standing state s input.old out.old)).input }
    ensures output { out.new ≡ (round_of P.program (standing state s input.old out.old)).output }
    ensures state { result.state ≡ (round_of P.program (standing state s input.old out.old)).state }
    ensures run { result.run ≡ (round_of P.program (standing state s input.old out.old)).run }
{
    let filled = count_first(s.filled, input);
    let n = buffered::<P>(state, &input[..filled], s.from, s.ended, out, s.at);
    Rounded {
        state: n.state,
        run: after_round(s, input, filled, n.progress, n.next, n.at),
    }
}
