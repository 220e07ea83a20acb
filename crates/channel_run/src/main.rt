// Every number of every call of a channel, and a few runs of one, written out for comparison with a program that was made apart from this
// one.
//
// A table is a line `table` with its number of records, a line `record` for each, and a line `row` for each group of which the wire has
// something: the group, then eight minislots as word and count in turn.
//
// The cases come from standard input, a line each, on the table that the line before left. A line `start`, `offer`, `hold`, `commit`,
// `withdraw`, `slot` or `calendar` has a call's arguments (of a commit or a withdrawal the index, and 1 for the short record or 2 for the
// long one; a calendar's 24 entries); it is written, then the answer, then the table as the call left it. An owned turn has the owner
// behind it. A line `coming` has the number of slots that it is asked who sends in, 1,030 at most, which is the length of the list that is
// lent, with 1000, 1001, .. in it; it is written, then the answer, then the list as the call left it. The indexes of a start come from the
// line `indexes` or `from` before it (after the last of them, each is one more than the one before), and the picks of a slot from the line
// `picks`. Other lines alter the table and write nothing: `blank` (so many records that stand for no station), `count` (another number of
// records lent), `station` (its place and index, the short message's condition and the long one's, with the counters of the line
// `counters` before it: m, n, the next group, H, N, eight RQ, eight Open marks; and the position and the calendar's entries of the line
// `position` after that), `minislot` (group, minislot, word and count). `table` writes the table, `show` the position and the owners of
// each of its records; `keep` keeps the table, and `again` comes back to the one that was kept.

#![tactic(auto)]

mod coming;
mod lines;

use coming::coming;
use lines::{owned_lines, table_lines};
use local_channel::LocalChannel;
use rehearsing::blank;
use rules::{Counters, Writing};
use runs_cases::{Group, split_group, whole, word};
use runs_files::read_full;
use runs_records::{
    answer_line, counters_at, counters_of, entries_of, start_line, station_of, writing,
};
use runs_tables::{begun, calendared, slotted, with_count, with_minislot, with_station, written};
use runs_text::text;
use std::io;

// The table that the next call is made on, the one that was kept, and what lines before a call gave it: the counters of records, the
// indexes of a start, the picks of a slot.
#[derive(Clone, Copy)]
struct State {
    last: LocalChannel,
    kept: LocalChannel,
    counters: Counters,
    indexes: Group,
    picks: Group,
}

// A call on the table.
#[derive(Clone, Copy)]
enum Call {
    Start,
    Write(Writing),
    Slot,
    Calendar,
}

// The index of a writing's station stands first.
fn call_of(line: &[u8], head: &Group) -> Option<Call> {
    match word(line) {
        b"start" => Some(Call::Start),
        b"slot" => Some(Call::Slot),
        b"calendar" => Some(Call::Calendar),
        other => writing(other, head.number(2)).map(Call::Write),
    }
}

// ---- the calls

// 65 indexes: those of a group, and from there on each one more than the one before.
fn indexes_of(g: &Group) -> [u16; 65] {
    let mut indexes = [0; 65];
    let mut index = 0;
    for (k, place) in indexes.iter_mut().enumerate() {
        index = if k < g.commas {
            g.number16(k + 1)
        } else {
            index % 2000 + 1
        };
        *place = index;
    }
    indexes
}

// The third number is how many of the indexes are lent.
fn start(rt: &impl Print, s: &State, head: &Group) -> io::Result<LocalChannel> {
    let indexes = indexes_of(&s.indexes);
    let end = (head.number(3) as usize).min(65);
    let r = begun(s.last, head.number8(1), head.number8(2), &indexes[..end]);
    start_line(rt, r.answer)?;
    Ok(r.channel)
}

fn write(rt: &impl Print, c: LocalChannel, index: u16, w: Writing) -> io::Result<LocalChannel> {
    let r = written(c, index, w);
    answer_line(rt, r.answer)?;
    Ok(r.channel)
}

// The number is how many of the picks are lent.
fn slot(rt: &impl Print, s: &State, head: &Group) -> io::Result<LocalChannel> {
    let picks = s.picks.counts(1, 1);
    let end = (head.number(1) as usize).min(24);
    let r = slotted(s.last, &picks[..end]);
    answer_line(rt, r.answer)?;
    Ok(r.channel)
}

fn calendar(rt: &impl Print, c: LocalChannel, head: &Group) -> io::Result<LocalChannel> {
    let r = calendared(c, entries_of(head));
    answer_line(rt, r.answer)?;
    Ok(r.channel)
}

// The table after a call.
fn called(rt: &impl Print, s: &State, call: Call, head: &Group) -> io::Result<LocalChannel> {
    match call {
        Call::Start => start(rt, s, head),
        Call::Write(w) => write(rt, s.last, head.number16(1), w),
        Call::Slot => slot(rt, s, head),
        Call::Calendar => calendar(rt, s.last, head),
    }
}

// ---- the cases

fn call_line(rt: &impl Print, line: &[u8]) -> io::Result<()> {
    text(rt, line)?;
    text(rt, b"\n")
}

// A call: its line, the answer and the table after.
fn make(rt: &impl Print, s: State, line: &[u8], call: Call, head: &Group) -> io::Result<State> {
    call_line(rt, line)?;
    let last = called(rt, &s, call, head)?;
    table_lines(rt, &last)?;
    Ok(State { last, ..s })
}

// The table after a line that alters it.
fn altered(s: &State, word: &[u8], head: &Group, rest: &[u8]) -> LocalChannel {
    let place = head.number(1) as usize;
    match word {
        b"blank" => blank(place),
        b"count" => with_count(s.last, place),
        b"station" => {
            let station = station_of(s.counters, head.number16(2), rest);
            with_station(s.last, place, station)
        }
        b"minislot" => {
            let j = head.number(2) as usize;
            with_minislot(s.last, place, j, head.number16(3), head.number8(4))
        }
        b"again" => s.kept,
        _ => s.last,
    }
}

// What is left after a line that writes nothing: it gives something to the lines after it, keeps the table, or alters it. A note leaves all
// as it was.
fn set(s: State, line: &[u8], head: &Group, rest: &[u8]) -> State {
    match word(line) {
        b"counters" => State {
            counters: counters_of(head),
            ..s
        },
        b"position" => State {
            counters: counters_at(s.counters, head, rest),
            ..s
        },
        b"from" | b"indexes" => State {
            indexes: *head,
            ..s
        },
        b"picks" => State { picks: *head, ..s },
        b"keep" => State { kept: s.last, ..s },
        other => State {
            last: altered(&s, other, head, rest),
            ..s
        },
    }
}

// One line.
fn case(rt: &impl Print, s: State, line: &[u8]) -> io::Result<State> {
    let (head, rest) = split_group(line);
    if let Some(call) = call_of(line, &head) {
        return make(rt, s, line, call, &head);
    }
    match word(line) {
        b"coming" => {
            call_line(rt, line)?;
            coming(rt, s.last, head.number(1) as usize)?;
            Ok(s)
        }
        b"table" => {
            table_lines(rt, &s.last)?;
            Ok(s)
        }
        b"show" => {
            owned_lines(rt, &s.last)?;
            Ok(s)
        }
        _ => Ok(set(s, line, &head, rest)),
    }
}

fn main(rt: HostRuntime) -> io::Result<()> {
    let mut space = [0u8; 65536];
    let n = read_full(&mut rt.reader(), &mut space)?;
    let none = whole(b"");
    let mut s = State {
        last: blank(0),
        kept: blank(0),
        counters: counters_of(&none),
        indexes: none,
        picks: none,
    };
    for line in space[..n].split(|byte| *byte == b'\n') {
        s = case(&rt, s, line)?;
    }
    Ok(())
}
