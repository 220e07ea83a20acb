// What a round of a program that reads records changes of its run and of its input buffer. Nothing here knows what the records are.

#![tactic(auto)]

ghost use Rattle.std.specs.Prelude.{◌≡◌};
ghost use Rattle.round_steps.specs.Rounds.{wants_by, needs_bytes, input_after, run_after};

use buffers::keep_rest;
use programs::Progress;
use standing::{Run, Wants};

// What is needed after the last record that was looked at.
fn wants_after(progress: Progress) -> Wants
    ensures { result ≡ wants_by progress }
{
    match progress {
        Progress::Went => Wants::Write,
        Progress::More => Wants::Read,
        Progress::Done | Progress::Refused(_) => Wants::End,
    }
}

// Whether bytes are missing at the end of that record.
fn needs_bytes(progress: Progress) -> bool
    ensures { result ≡ needs_bytes progress }
{
    matches!(progress, Progress::More)
}

// After a round over the first filled bytes of the input buffer: what became of the last record that was looked at, where the next begins,
// and the place after the lines. Where bytes are missing, those of the record that has begun go to the front of the input buffer.
pub fn after_round(
    s: Run,
    input: &mut [u8],
    filled: usize,
    progress: Progress,
    next: usize,
    at: usize,
) -> Run
    ensures input { input.new ≡ input_after progress input.old next filled }
    ensures run { result ≡ run_after s input.old filled progress next at }
{
    let wants = wants_after(progress);
    if needs_bytes(progress) {
        return Run {
            from: 0,
            filled: keep_rest(input, next, filled),
            at,
            wants,
            ..s
        };
    }
    Run {
        from: next,
        filled,
        at,
        wants,
        ..s
    }
}
