// What programs that read records and print lines have in common. What they are, and what they print, is said in specs/.

#![tactic(auto)]

ghost use Rattle.std.specs.Prelude.{◌≡◌, ◌-◌, ℕ};
ghost use Rattle.programs.specs.Places.{place_following};
ghost use Rattle.programs.specs.Program as described;
ghost use Rattle.programs.specs.Advancing.{goes_on, advance_of};
ghost use Rattle.programs.specs.Buffering.{put_lines, reached, reached_by};

// What became of a record: it went through; it is not whole yet; no record is left; it was refused with a number, which ends the output.
#[derive(Clone, Copy)]
pub enum Progress {
    Went,
    More,
    Done,
    Refused(u8),
}

// Whether the next record is to be read.
pub fn goes_on(progress: Progress) -> bool
    ensures { result ≡ goes_on progress }
{
    matches!(progress, Progress::Went)
}

// The record that begins at a place: what became of it, what is known after it, where the next begins, and the place after its lines.
#[derive(Clone, Copy)]
pub struct Next<S> {
    pub progress: Progress,
    pub state: S,
    pub next: usize,
    pub at: usize,
}

// A program that reads records and prints lines.
pub trait Program {
    // What it knows between two records.
    type State: Copy;

    // What it is: the definition of all that it reads and prints.
    ghost program: { described.Program Self.State };

    // The bytes that the lines of one record may take.
    ghost ROOM: { ℕ };

    const ROOM: usize;

    // The record that begins at place start of the bytes, its lines written from place at of the buffer on, each if it fits there; ended:
    // no byte comes after these.
    fn next(
        state: Self::State,
        bytes: &[u8],
        start: usize,
        ended: bool,
        out: &mut [u8],
        at: usize,
    ) -> Next<Self::State>
        ensures buffer { out.new ≡ put_lines out.old at (advance_of program state bytes.now start ended).lines }
        ensures answer { reached_by result ≡ reached (advance_of program state bytes.now start ended) out.old at };

    // It is the room of the definition.
    ghost room_is: { program.room ≡ ROOM };
}

// The number of the record after the one of this number.
pub fn place_following(place: u64) -> u64
    ensures { result ≡ place_following place }
{
    place.saturating_add(1)
}

// The number of a record where the first record does not count.
pub fn past_first(place: u64) -> u64
    ensures { result ≡ place - 1 }
{
    place.saturating_sub(1)
}
