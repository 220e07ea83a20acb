// Reading the records that stand in a stretch of bytes, one after another, by any program.

#![tactic(auto)]

ghost use Rattle.std.specs.Prelude.{◌≡◌};
ghost use Rattle.programs.specs.Buffering.{buffered_of, reached_by};

use decimals::has_room;
use programs::{Next, Program, Progress, goes_on};

// Reads the records that begin at place start of the bytes, one after another, and writes their lines from place at of the buffer on,
// until no whole record is left, one ends the output, or the buffer has no room for the lines of another (the answer is then Went);
// ended: no byte comes after these.
pub fn buffered<P: Program>(
    state: P::State,
    bytes: &[u8],
    start: usize,
    ended: bool,
    out: &mut [u8],
    at: usize,
) -> Next<P::State>
    ensures buffer { out.new ≡ (buffered_of P.program state bytes.now start ended out.old at).buffer }
    ensures answer { reached_by result ≡ (buffered_of P.program state bytes.now start ended out.old at).answer }
{
    let mut n = Next {
        progress: Progress::Went,
        state,
        next: start,
        at,
    };
    for round in 0..=bytes.len() {
        if !has_room(out.len(), n.at, P::ROOM) {
            return n;
        }
        n = P::next(n.state, bytes, n.next, ended, out, n.at);
        if !goes_on(n.progress) {
            return n;
        }
    }
    n
}
