// Recordings made by a rule, and their rows listened to one after the other, each on the record that the one before it left.
ghost use Rattle.std.specs.Prelude.{◌≤◌};

use crate::{Way, heard_by, heard_text};
use minislot::Minislot;
use rules::{Counters, Listened};
use runs_text::text;
use std::io;

// 480 minislots, one after the other.
#[derive(Clone, Copy)]
struct Tape {
    words: [u16; 480],
    counts: [u8; 480],
}

// The row of a recording from a place up to an end; the second way has all of the recording lent.
fn row(way: Way, c: Counters, tape: &Tape, at: usize, end: usize) -> Listened
    requires rising { at ≤ end }
    requires within { end ≤ 480 }
{
    let words = &tape.words;
    let counts = &tape.counts;
    match way {
        Way::Place => heard_by(way, c, words, counts, at),
        _ => heard_by(way, c, &words[at..end], &counts[at..end], 0),
    }
}

fn way_text(rt: &impl Print, way: Way) -> io::Result<()> {
    match way {
        Way::Value => text(rt, b"value"),
        Way::Place => text(rt, b"place"),
        Way::Lent => text(rt, b"lent"),
    }
}

// The record of a start, with a calendar set on it.
fn started(m: u8, n: u8, entries: [u16; 24]) -> Counters {
    listener::set_calendar(listener::start(m, n).counters, entries).counters
}

// 40 rows of m minislots, one after the other, from a place of the recording, on a record that has a start's counters and m minislots.
fn rows(
    rt: &impl Print,
    way: Way,
    start: Counters,
    m: u8,
    shown: bool,
    tape: &Tape,
    first: usize,
) -> io::Result<()>
    requires narrow { m ≤ 8 }
    requires early { first ≤ 160 }
{
    let mut c = start;
    let mut at = first;
    for i in 0..40usize {
        let end = at + usize::from(m);
        let heard = row(way, c, tape, at, end);
        way_text(rt, way)?;
        heard_text(rt, &heard, shown)?;
        text(rt, b"\n")?;
        c = heard.counters;
        at = end;
    }
    Ok(())
}

// The rule of the recordings: each minislot has a number, and the next one has this.
fn following(x: usize, p: usize) -> usize {
    (181 * (x % 2000) + 59).checked_rem(p).unwrap_or(0)
}

// What a minislot of a number has: 0 to 63 a Single, 64 to 127 a Collide, 128 a click, 129 to 131 a refusal 1, 3 and 4, and Empty from
// there on.
fn minislot_of(x: usize) -> Minislot {
    let patterns: [u16; 8] = [63, 95, 111, 119, 1365, 2730, 3087, 4032];
    let collided: [u16; 4] = [127, 255, 2047, 4095];
    let (word, count) = match x {
        0..=63 => (patterns[x % 8], (x / 8 % 4) as u8 + 1),
        64..=127 => (collided[x % 4], (x % 4) as u8 + 1),
        128 => (62, 1),
        129 => (4096, 0),
        130 => (63, 0),
        131 => (0, 1),
        _ => (0, 0),
    };
    Minislot { word, count }
}

// The recording that the rule makes with a number.
fn made(p: usize) -> Tape {
    let mut words = [0; 480];
    let mut counts = [0; 480];
    let mut x = 1;
    for (word, count) in words.iter_mut().zip(counts.iter_mut()) {
        let minislot = minislot_of(x);
        *word = minislot.word;
        *count = minislot.count;
        x = following(x, p);
    }
    Tape { words, counts }
}

// A recording in n groups of m minislots, under a calendar: its rows in each way, from other places of it.
pub(crate) fn recordings(
    rt: &impl Print,
    p: usize,
    n: u8,
    m: u8,
    entries: [u16; 24],
    shown: bool,
) -> io::Result<()> {
    let tape = made(p);
    let width = m % 9;
    let start = started(width, n, entries);
    rows(rt, Way::Value, start, width, shown, &tape, 0)?;
    rows(rt, Way::Place, start, width, shown, &tape, 7)?;
    rows(rt, Way::Lent, start, width, shown, &tape, 160)
}
