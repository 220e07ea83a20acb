// Where a run of a program that reads records stands between two calls of the system, and what a read and a write change of it. Nothing here
// knows what the records are.

#![tactic(auto)]

ghost use Rattle.std.specs.Prelude.{◌≡◌, ◌+◌, min, length, take};
ghost use Rattle.standing.specs.Standing.{begun_of, most_read, read_of, written_of};

// What a run needs next: more bytes of the input; room in the output buffer; or, since it is over, only that the output is written.
#[derive(Clone, Copy)]
pub enum Wants {
    Read,
    Write,
    End,
}

// Where a run stands.
#[derive(Clone, Copy)]
pub struct Run {
    // the bytes of the input buffer from here up to `filled` are still to be read as records
    pub from: usize,
    pub filled: usize,
    // no byte comes after those
    pub ended: bool,
    // the bytes of the output buffer before this place are still to be written
    pub at: usize,
    pub wants: Wants,
}

// Before the first read: the output buffer holds the header, which ends before place at.
pub fn begin_run(at: usize) -> Run
    ensures { result ≡ begun_of at }
{
    Run {
        from: 0,
        filled: 0,
        ended: false,
        at,
        wants: Wants::Read,
    }
}

// The place so many bytes behind another, or the buffer's end if that comes first.
fn place_behind(place: usize, more: usize, size: usize) -> usize
    ensures { result ≡ min (place + more) size }
{
    place.saturating_add(more).min(size)
}

// The most that a read asks for, so that the bytes of a record that has begun have room before it.
const MOST_READ: usize = 64512;

// Where the bytes end that a read behind the kept ones may give.
pub fn read_end(kept: usize, input: &[u8]) -> usize
    ensures { result ≡ length (take (kept + most_read) input.now) }
{
    place_behind(kept, MOST_READ, input.len())
}

// After a read that put so many bytes behind those that are kept; none: the input is over.
pub fn after_read(s: Run, input: &[u8], more: usize) -> Run
    ensures { result ≡ read_of s input.now more }
{
    Run {
        filled: place_behind(s.filled, more, input.len()),
        ended: more == 0,
        ..s
    }
}

// After the output was written.
pub fn after_write(s: Run) -> Run
    ensures { result ≡ written_of s }
{
    Run { at: 0, ..s }
}
