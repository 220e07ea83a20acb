// The record that begins at a place of the input: what became of it, what is known after it, where the next begins, and its line.

#![tactic(auto)]

ghost use Rattle.std.specs.Prelude.{◌≡◌};
ghost use Rattle.programs.specs.Advancing.{done_advance, advance_of};
ghost use Rattle.following.specs.FollowProgram.{follow_program};
ghost use Rattle.advances.specs.Advanced.{progress_of, stepped_of, advanced};

use following::{Follower, Line, Step, refused};
use programs::Progress;
use record_steps::read_record;
use records::{Cut, cut_record};

// The record that begins at a place: what became of it, what is known after it, where the next begins, and its line.
#[derive(Clone, Copy)]
pub struct Advance {
    pub progress: Progress,
    pub follower: Follower,
    pub next: usize,
    pub line: Line,
}

// The most bytes of a record before its CR LF.
const LONGEST: usize = 128;

// What became of a record that led to this line.
pub fn progress_of(line: Line) -> Progress
    ensures { result ≡ progress_of line }
{
    match line {
        Line::Nothing | Line::Row { .. } => Progress::Went,
        Line::Refusal { number, .. } => Progress::Refused(number),
    }
}

// A record that was followed, with the next one at place next.
fn stepped(s: Step, next: usize) -> Advance
    ensures { result ≡ stepped_of s next }
{
    Advance {
        progress: progress_of(s.line),
        follower: s.follower,
        next,
        line: s.line,
    }
}

// The input ended. 19: the first record is missing.
fn done(f: Follower, start: usize) -> Advance
    ensures { advanced result ≡ done_advance follow_program f start }
{
    if 1 < f.place {
        return Advance {
            progress: Progress::Done,
            follower: f,
            next: start,
            line: Line::Nothing,
        };
    }
    stepped(refused(f, 19), start)
}

// The record that begins at place start.
pub fn advance_at(f: Follower, bytes: &[u8], start: usize, ended: bool) -> Advance
    ensures { advanced result ≡ advance_of follow_program f bytes.now start ended }
{
    match cut_record(bytes, start, LONGEST, ended) {
        Cut::Record { end, next } => stepped(read_record(f, &bytes[start..end]), next),
        Cut::More => Advance {
            progress: Progress::More,
            follower: f,
            next: start,
            line: Line::Nothing,
        },
        Cut::Done => done(f, start),
        Cut::Broken => stepped(refused(f, 19), start),
    }
}
