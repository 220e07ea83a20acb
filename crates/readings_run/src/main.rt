// Readings of minislots and of rows, written out for comparison with a program that was made apart from this one.
//
// The cases come from standard input, a line each, and each line's answer follows it. A line `minislot` has a word and a count; a line
// `digest` the first of the words to be read, the one past the last, and their count; a line `row` m, words and counts; a line `row_at` the
// start and m, and the words and counts of a recording. A digest answers how many of each answer there were, and the sums of what the
// Singles carried; a row its number, its weight and all eight places.

#![tactic(auto)]

ghost use Rattle.std.specs.Prelude.{◌≤◌};

use minislot::{Feedback, Reading, RowReading};
use runs_cases::{Group, split_group, word};
use runs_files::read_full;
use runs_text::text;
use std::io;

// What a line asks for.
#[derive(Clone, Copy)]
enum Call {
    Minislot,
    Digest,
    Row,
    RowAt,
}

fn call_of(word: &[u8]) -> Option<Call> {
    match word {
        b"minislot" => Some(Call::Minislot),
        b"digest" => Some(Call::Digest),
        b"row" => Some(Call::Row),
        b"row_at" => Some(Call::RowAt),
        _ => None,
    }
}

// ---- readings as text

fn feedback_text(rt: &impl Print, feedback: Feedback) -> io::Result<()> {
    match feedback {
        Feedback::Empty => text(rt, b" empty"),
        Feedback::Single(index, count) => print!(rt; " single,{index},{count}"),
        Feedback::Collide => text(rt, b" collide"),
    }
}

fn reading_text(rt: &impl Print, reading: Reading) -> io::Result<()> {
    match reading {
        Reading::Heard(feedback) => feedback_text(rt, feedback),
        Reading::Refused(number) => print!(rt; " refused,{number}"),
    }
}

// ---- a digest

// How many of each answer there were (refusal 1 stands at 1; of 2, which is retired, there are none), and the sums of the indexes and of
// the counts of Singles. None here comes near the limit of its type.
#[derive(Clone, Copy, Default)]
struct Tally {
    empty: u64,
    single: u64,
    collide: u64,
    refused: [u64; 5],
    indexes: u64,
    counts: u64,
}

// The tally with one more reading.
fn tallied(mut tally: Tally, reading: Reading) -> Tally {
    match reading {
        Reading::Heard(Feedback::Empty) => tally.empty = tally.empty.saturating_add(1),
        Reading::Heard(Feedback::Single(index, count)) => {
            tally.single = tally.single.saturating_add(1);
            tally.indexes = tally.indexes.saturating_add(u64::from(index));
            tally.counts = tally.counts.saturating_add(u64::from(count));
        }
        Reading::Heard(Feedback::Collide) => tally.collide = tally.collide.saturating_add(1),
        Reading::Refused(number) => {
            let place = usize::from(number % 5);
            tally.refused[place] = tally.refused[place].saturating_add(1);
        }
    }
    tally
}

// All words from the first up to the end, with one count.
fn digest_text(rt: &impl Print, first: u32, end: u32, count: u8) -> io::Result<()>
    requires { end ≤ 65536 }
{
    let mut tally = Tally::default();
    for word in first..end {
        tally = tallied(tally, minislot::read(word as u16, count));
    }
    print!(rt;
        " empty,{} single,{} collide,{}",
        tally.empty, tally.single, tally.collide
    )?;
    for (number, times) in tally.refused.iter().enumerate().skip(1) {
        print!(rt; " refused,{number},{times}")?;
    }
    print!(rt; " indexes,{} counts,{}", tally.indexes, tally.counts)
}

// ---- the calls

// Both ends are 65536 at most.
fn digest_case(rt: &impl Print, head: &Group) -> io::Result<()> {
    let first = (head.number(1) % 65537) as u32;
    let end = (head.number(2) % 65537) as u32;
    digest_text(rt, first, end, head.number8(3))
}

// A row's whole answer: its number, its weight and its eight places.
fn row_text(rt: &impl Print, row: &RowReading) -> io::Result<()> {
    print!(rt; " number,{} weight,{}", row.number, row.weight)?;
    for place in &row.minislots {
        feedback_text(rt, place.feedback)?;
    }
    Ok(())
}

// A row of m minislots, or the row of a recording from a start, if there is one.
fn row_case(rt: &impl Print, start: Option<usize>, m: u8, rest: &[u8]) -> io::Result<()> {
    let (w, rest) = split_group(rest);
    let (c, _) = split_group(rest);
    let words = w.words(1, 1);
    let counts = c.counts(1, 1);
    let words = &words[..w.count()];
    let counts = &counts[..c.count()];
    let row = match start {
        None => row_reading::read_row(words, counts, m),
        Some(start) => row_at::read_row_at(words, counts, start, m),
    };
    row_text(rt, &row)
}

// ---- the cases

// One line: it is written, and then its answer.
fn case(rt: &impl Print, line: &[u8]) -> io::Result<()> {
    let Some(call) = call_of(word(line)) else {
        return Ok(());
    };
    let (head, rest) = split_group(line);
    text(rt, line)?;
    match call {
        Call::Minislot => reading_text(rt, minislot::read(head.number16(1), head.number8(2)))?,
        Call::Digest => digest_case(rt, &head)?,
        Call::Row => row_case(rt, None, head.number8(1), rest)?,
        Call::RowAt => row_case(rt, Some(head.number(1) as usize), head.number8(2), rest)?,
    }
    text(rt, b"\n")
}

fn main(rt: HostRuntime) -> io::Result<()> {
    let mut space = [0u8; 65536];
    let n = read_full(&mut rt.reader(), &mut space)?;
    for line in space[..n].split(|byte| *byte == b'\n') {
        case(&rt, line)?;
    }
    Ok(())
}
