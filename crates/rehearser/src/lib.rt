// The record that begins at a place of the input of `rehearse`.

#![tactic(auto)]

ghost use Rattle.std.specs.Prelude.{◌≡◌, refl};
ghost use Rattle.programs.specs.Advancing.{done_advance, advance_of};
ghost use Rattle.rehearsing.specs.Rehearse.{rehearse_program, reached_by, written_by};

use programs::{Program, Progress};
use records::{Cut, cut_record};
use rehearse_records::rehearse_record;
use rehearsing::{Next, Rehearsal, end_with};

// The most bytes of a record before its CR LF.
const LONGEST: usize = 512;

// The input ended. 19: the first record is missing.
fn finish(r: Rehearsal, start: usize, out: &mut [u8], at: usize) -> Next
    ensures buffer { out.new ≡ (written_by (done_advance rehearse_program r start) out.old at).buffer }
    ensures answer { reached_by result ≡ (written_by (done_advance rehearse_program r start) out.old at).answer }
{
    if r.place <= 1 {
        return end_with(r, 19, start, out, at);
    }
    Next {
        progress: Progress::Done,
        rehearsal: r,
        next: start,
        at,
    }
}

// The record that begins at place start of the bytes, its lines written from place at of the buffer on; ended: no byte comes after these.
// 19: the record breaks the form, or the first one is missing.
pub fn rehearse_next(
    r: Rehearsal,
    bytes: &[u8],
    start: usize,
    ended: bool,
    out: &mut [u8],
    at: usize,
) -> Next
    ensures buffer { out.new
        ≡ (written_by (advance_of rehearse_program r bytes.now start ended) out.old at).buffer }
    ensures answer { reached_by result
        ≡ (written_by (advance_of rehearse_program r bytes.now start ended) out.old at).answer }
{
    match cut_record(bytes, start, LONGEST, ended) {
        Cut::Record { end, next } => rehearse_record(r, &bytes[start..end], next, out, at),
        Cut::More => Next {
            progress: Progress::More,
            rehearsal: r,
            next: start,
            at,
        },
        Cut::Done => finish(r, start, out, at),
        Cut::Broken => end_with(r, 19, start, out, at),
    }
}

// The program `rehearse`, to be run by what runs any program that reads records.
pub struct Rehearse;

impl Program for Rehearse {
    type State = Rehearsal;

    ghost program = { rehearse_program };

    ghost ROOM = { 24576 };

    // The lines of a record take no more than this.
    const ROOM: usize = 24576;

    fn next(
        state: Rehearsal,
        bytes: &[u8],
        start: usize,
        ended: bool,
        out: &mut [u8],
        at: usize,
    ) -> programs::Next<Rehearsal> {
        let n = rehearse_next(state, bytes, start, ended, out, at);
        programs::Next {
            progress: n.progress,
            state: n.rehearsal,
            next: n.next,
            at: n.at,
        }
    }

    ghost room_is = { refl };
}
