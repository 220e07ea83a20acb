// What `follow` does with one record of its input: the listener's record goes on and a line is written, or the output ends with a refusal.

#![tactic(auto)]

ghost use Rattle.std.specs.Prelude.{◌≡◌, refl};
ghost use Rattle.programs.specs.Advancing.{advance_of};
ghost use Rattle.programs.specs.Buffering.{put_lines, place_after_lines, reached, reached_by};
ghost use Rattle.following.specs.Following.{printed, follow_record};
ghost use Rattle.following.specs.FollowProgram.{follow_program};
ghost use Rattle.follower.specs.Writing.{followed};
ghost use Rattle.follower.specs.Answered.{progress_told, record_told_of, next_told_of};

use advances::{advance_at, progress_of};
use following::{Follower, Line};
use lines::put_line;
use programs::{Next, Program, Progress};
use record_steps::read_record;
use refusals::put_refusal;

// One record followed and its line written: what became of it, what is known after it, and the place after the line.
#[derive(Clone, Copy)]
pub struct Followed {
    pub progress: Progress,
    pub follower: Follower,
    pub at: usize,
}

// A line, at place at if it fits there; gives the place after it, or at.
fn put(line: Line, out: &mut [u8], at: usize) -> usize
    ensures buffer { out.new ≡ put_lines out.old at (printed line) }
    ensures reached { result ≡ place_after_lines out.old at (printed line) }
{
    match line {
        Line::Nothing => at,
        Line::Refusal { number, place } => put_refusal(out, at, number, place),
        Line::Row {
            slot,
            group,
            letter,
            urgent,
            long,
            resolution,
        } => put_line(out, at, slot, group, letter, urgent, long, resolution),
    }
}

// Follows one record, which is handed over without its CR LF, and writes its line at place at if it fits there.
// In the first record: 19, then 5. In a row: 19, then 6, then listening's numbers. A refusal writes its line and ends the output.
pub fn follow_record(f: Follower, bytes: &[u8], out: &mut [u8], at: usize) -> Followed
    ensures buffer { out.new ≡ put_lines out.old at (printed (follow_record f bytes.now).line) }
    ensures answer { result ≡ followed (follow_record f bytes.now) out.old at }
    ensures told { progress_told result.progress ≡ record_told_of f bytes.now }
{
    let s = read_record(f, bytes);
    Followed {
        progress: progress_of(s.line),
        follower: s.follower,
        at: put(s.line, out, at),
    }
}

// Follows the record that begins at place start of the bytes, and writes its line at place at of the buffer if it fits there; ended: no
// byte comes after these. 19: the record breaks the form, or the first one is missing. The other numbers are those of `follow_record`.
pub fn follow_next(
    f: Follower,
    bytes: &[u8],
    start: usize,
    ended: bool,
    out: &mut [u8],
    at: usize,
) -> Next<Follower>
    ensures buffer { out.new ≡ put_lines out.old at (advance_of follow_program f bytes.now start ended).lines }
    ensures answer { reached_by result ≡ reached (advance_of follow_program f bytes.now start ended) out.old at }
    ensures told { progress_told result.progress ≡ next_told_of f bytes.now start ended }
{
    let a = advance_at(f, bytes, start, ended);
    Next {
        progress: a.progress,
        state: a.follower,
        next: a.next,
        at: put(a.line, out, at),
    }
}

// The program `follow`, to be run by what runs any program that reads records.
pub struct Follow;

impl Program for Follow {
    type State = Follower;

    ghost program = { follow_program };

    ghost ROOM = { 128 };

    // No line is longer than this.
    const ROOM: usize = 128;

    fn next(
        state: Follower,
        bytes: &[u8],
        start: usize,
        ended: bool,
        out: &mut [u8],
        at: usize,
    ) -> Next<Follower> {
        follow_next(state, bytes, start, ended, out, at)
    }

    ghost room_is = { refl };
}
