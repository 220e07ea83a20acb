// Slot totals and segments, written out for comparison with a program that was made apart from this one.
//
// The cases come from standard input, a line each, and each line's answer follows it. A line `slots` has a message's bytes, and is answered
// by the number and the slot total; a line `segment` a message's bytes and j, and is answered by the number, the part's bytes, and its
// first and last byte (0 and 0 of an empty part). A line `urgent`, `long`, `resolve`, `open` or `owned` has the bytes of a short and of a
// long message, j, and the owner of an owned turn, and is answered in the same way by the segment of the two.

#![tactic(auto)]

use message::SlotTotal;
use rules::Turn;
use runs_cases::{Group, split_group, word};
use runs_files::read_full;
use runs_text::text;
use std::{array, io};

// One byte more than the longest message has.
const MOST: usize = 12241;

// The place in the space where a long message begins beside a short one, so that the two have different bytes.
const LONG: usize = 100;

// What a line asks for: a message's slot total, a segment of it, or the segment of two messages in a turn.
#[derive(Clone, Copy)]
enum Call {
    Slots,
    Segment,
    Turn(Turn),
}

// The turn of an owned slot has its owner's index behind it.
fn call_of(word: &[u8], owner: u16) -> Option<Call> {
    match word {
        b"slots" => Some(Call::Slots),
        b"segment" => Some(Call::Segment),
        b"urgent" => Some(Call::Turn(Turn::Urgent)),
        b"long" => Some(Call::Turn(Turn::Long)),
        b"resolve" => Some(Call::Turn(Turn::Resolve)),
        b"open" => Some(Call::Turn(Turn::Open)),
        b"owned" => Some(Call::Turn(Turn::Owned { owner })),
        _ => None,
    }
}

// The bytes of the space: byte i is (31 · (i mod 251) + 7) mod 251.
fn filled() -> [u8; 12341] {
    array::from_fn(|i| ((31 * (i % 251) + 7) % 251) as u8)
}

fn slots_text(rt: &impl Print, total: SlotTotal) -> io::Result<()> {
    match total {
        SlotTotal::Slots(slots) => print!(rt; ",0,{slots}"),
        SlotTotal::Refused(number) => print!(rt; ",{number},0"),
    }
}

// A number that was set, and the part that was handed back with it.
fn part_text(rt: &impl Print, number: u8, part: &[u8]) -> io::Result<()> {
    let bytes = part.len();
    let first = part.first().copied().unwrap_or(0);
    let last = part.last().copied().unwrap_or(0);
    print!(rt; ",{number},{bytes},{first},{last}")
}

// A number is lent as 255, which no call sets.
fn segment_text(rt: &impl Print, message: &[u8], j: usize) -> io::Result<()> {
    let mut number: u8 = 255;
    let part = segments::segment(message, j, &mut number);
    part_text(rt, number, part)
}

// The segment of two messages, which are parts of the space.
fn turn_text(rt: &impl Print, space: &[u8; 12341], turn: Turn, head: &Group) -> io::Result<()> {
    let short = (head.number(1) as usize).min(MOST);
    let long = (head.number(2) as usize).min(MOST);
    let j = head.number(3) as usize;
    let mut set: u8 = 255;
    let part = turn_segments::segment_of(
        &space[..short],
        &space[LONG..LONG + long],
        turn,
        j,
        &mut set,
    );
    part_text(rt, set, part)
}

// One line: it is written, and then its answer. A message alone is the first bytes of the space.
fn case(rt: &impl Print, line: &[u8], space: &[u8; 12341]) -> io::Result<()> {
    let (head, _) = split_group(line);
    let bytes = head.number(1) as usize;
    let Some(call) = call_of(word(line), head.number16(4)) else {
        return Ok(());
    };
    text(rt, line)?;
    match call {
        Call::Slots => slots_text(rt, message::slots(bytes))?,
        Call::Segment => segment_text(rt, &space[..bytes.min(MOST)], head.number(2) as usize)?,
        Call::Turn(turn) => turn_text(rt, space, turn, &head)?,
    }
    text(rt, b"\n")
}

fn main(rt: HostRuntime) -> io::Result<()> {
    let space = filled();
    let mut input = [0u8; 65536];
    let n = read_full(&mut rt.reader(), &mut input)?;
    for line in input[..n].split(|byte| *byte == b'\n') {
        case(&rt, line, &space)?;
    }
    Ok(())
}
