// Every number of every call of a station, and a few of its lives, written out for comparison with a program that was made apart from this
// one.
//
// The cases come from standard input, a line each, on the record that the line before left. A line `start`, `offer`, `hold`, `commit`,
// `withdraw`, `slot`, `slot_at` or `calendar` has the call's arguments (of a commit or a withdrawal 1 for the short record and 2 for the
// long one; a slot's minislots as word and count in turn; a calendar's 24 entries); it is written, then the answer, then a line `record`
// with the record after the call: m, n, the next group, H, N, eight RQ, eight Open marks, the index, the short message's condition and the
// long one's, each a word and three numbers; after a calendar also a line `position` with the position and the owners. An owned turn has
// the owner behind it. A line `given` makes a record that no call made, of the same numbers (an Open mark is 1 for yes), each condition in
// a group of its own; a line `position` gives the record a position and the entries of a calendar, and a line `show` writes them. `keep`
// keeps the record, and `again` comes back to the one that was kept. A line `recording` has the minislots that `slot_at` takes its row
// from, word and count in turn. A line `listener` starts a listener; `beside` is a `slot_at` that this listener hears too, and
// `calendar_beside` a calendar that it is given too: after what is written of the station come the listener's answer and its counters,
// and its position and owners.
//
// There are more cases than one buffer of 65,536 bytes takes, so the program fills it twice. No line may stand across the two: among the
// cases are notes with nothing but dots, so long that a line ends with the last byte of the first buffer.

#![tactic(auto)]

use rules::{Counters, ListenAnswer, SlotAnswer, Station, WriteAnswer, Writing};
use runs_cases::{Group, split_group, whole, word};
use runs_files::read_full;
use runs_records::{
    counters_at, counters_fields, counters_of, entries_of, owned_text, record_line, refused_line,
    set_line, start_line, station_of, total_line, went_text, writing,
};
use runs_text::text;
use std::io;

// The record that the next call is made on, and the one that was kept; a listener's record, and the recording that both hear.
#[derive(Clone, Copy)]
struct Records {
    last: Station,
    kept: Station,
    beside: Counters,
    recording: Group,
}

// A call of the station. The last two are the listener's beside it too.
#[derive(Clone, Copy)]
enum Call {
    Start,
    Write(Writing),
    Slot,
    SlotAt,
    Calendar,
    Beside,
    CalendarBeside,
}

fn call_of(line: &[u8], head: &Group) -> Option<Call> {
    match word(line) {
        b"start" => Some(Call::Start),
        b"slot" => Some(Call::Slot),
        b"slot_at" => Some(Call::SlotAt),
        b"calendar" => Some(Call::Calendar),
        b"beside" => Some(Call::Beside),
        b"calendar_beside" => Some(Call::CalendarBeside),
        other => writing(other, head.number(1)).map(Call::Write),
    }
}

// ---- the calls

fn start(rt: &impl Print, head: &Group) -> io::Result<Station> {
    let r = station::start(head.number8(1), head.number8(2), head.number16(3));
    start_line(rt, r.answer)?;
    Ok(r.station)
}

fn write(rt: &impl Print, s: Station, w: Writing) -> io::Result<Station> {
    let r = station_write::write(s, w);
    match r.answer {
        WriteAnswer::Total(total) => total_line(rt, w, total)?,
        WriteAnswer::Refused(number) => refused_line(rt, number)?,
    }
    Ok(r.station)
}

fn slot_line(rt: &impl Print, answer: SlotAnswer) -> io::Result<()> {
    match answer {
        SlotAnswer::Went {
            turn,
            minislot,
            segment,
        } => {
            went_text(rt, turn)?;
            println!(rt; ",{minislot},{segment}")
        }
        SlotAnswer::Refused(number) => refused_line(rt, number),
    }
}

// The words and the counts of a group stand in turn, and its last number is the pick.
fn slot(rt: &impl Print, s: Station, head: &Group) -> io::Result<Station> {
    let words = head.words(1, 2);
    let counts = head.counts(2, 2);
    let many = head.count();
    let end = many / 2;
    let r = station_slot::slot(s, &words[..end], &counts[..end], head.number8(many));
    slot_line(rt, r.answer)?;
    Ok(r.station)
}

// A row of the recording, whose words and counts stand in turn: its place and the pick.
fn slot_at(rt: &impl Print, s: Station, recording: &Group, head: &Group) -> io::Result<Station> {
    let words = recording.words(1, 2);
    let counts = recording.counts(2, 2);
    let end = recording.count() / 2;
    let place = head.number(1) as usize;
    let r = recorded_slot::slot_at(s, &words[..end], &counts[..end], place, head.number8(2));
    slot_line(rt, r.answer)?;
    Ok(r.station)
}

fn owned_line(rt: &impl Print, c: &Counters) -> io::Result<()> {
    owned_text(rt, c)?;
    text(rt, b"\n")
}

fn calendar(rt: &impl Print, s: Station, head: &Group) -> io::Result<Station> {
    let r = station_calendar::set_calendar(s, entries_of(head));
    set_line(rt, r.answer)?;
    Ok(r.station)
}

// The record after a call.
fn called(rt: &impl Print, r: &Records, call: Call, head: &Group) -> io::Result<Station> {
    match call {
        Call::Start => start(rt, head),
        Call::Write(w) => write(rt, r.last, w),
        Call::Slot => slot(rt, r.last, head),
        Call::SlotAt | Call::Beside => slot_at(rt, r.last, &r.recording, head),
        Call::Calendar | Call::CalendarBeside => calendar(rt, r.last, head),
    }
}

// ---- the listener

// The listener's counters, as they are written.
fn counters_line(rt: &impl Print, c: &Counters) -> io::Result<()> {
    text(rt, b"counters")?;
    counters_fields(rt, c)?;
    text(rt, b"\n")
}

fn listener_start(rt: &impl Print, head: &Group) -> io::Result<Counters> {
    let r = listener::start(head.number8(1), head.number8(2));
    start_line(rt, r.answer)?;
    Ok(r.counters)
}

// The same row of the recording.
fn listen_at(
    rt: &impl Print,
    c: Counters,
    recording: &Group,
    place: usize,
) -> io::Result<Counters> {
    let words = recording.words(1, 2);
    let counts = recording.counts(2, 2);
    let end = recording.count() / 2;
    let r = listening::listen_at(c, &words[..end], &counts[..end], place);
    match r.answer {
        ListenAnswer::Went(turn) => {
            went_text(rt, turn)?;
            text(rt, b"\n")?;
        }
        ListenAnswer::Refused(number) => refused_line(rt, number)?,
    }
    Ok(r.counters)
}

fn listener_calendar(rt: &impl Print, c: Counters, head: &Group) -> io::Result<Counters> {
    let r = listener::set_calendar(c, entries_of(head));
    set_line(rt, r.answer)?;
    Ok(r.counters)
}

// The listener's record after its part of a call, and what is written of it.
fn heard(rt: &impl Print, r: &Records, call: Call, head: &Group) -> io::Result<Counters> {
    match call {
        Call::Beside => {
            let after = listen_at(rt, r.beside, &r.recording, head.number(1) as usize)?;
            counters_line(rt, &after)?;
            Ok(after)
        }
        Call::CalendarBeside => {
            let after = listener_calendar(rt, r.beside, head)?;
            counters_line(rt, &after)?;
            owned_line(rt, &after)?;
            Ok(after)
        }
        _ => Ok(r.beside),
    }
}

// ---- the cases

fn call_line(rt: &impl Print, line: &[u8]) -> io::Result<()> {
    text(rt, line)?;
    text(rt, b"\n")
}

// A call: its line, the answer and the record after.
fn make(rt: &impl Print, r: Records, line: &[u8], call: Call, head: &Group) -> io::Result<Records> {
    call_line(rt, line)?;
    let last = called(rt, &r, call, head)?;
    record_line(rt, &last)?;
    if matches!(call, Call::Calendar | Call::CalendarBeside) {
        owned_line(rt, &last.counters)?;
    }
    let beside = heard(rt, &r, call, head)?;
    Ok(Records { last, beside, ..r })
}

// The start of a listener: its line, the answer and the counters after.
fn start_beside(rt: &impl Print, line: &[u8], head: &Group) -> io::Result<Counters> {
    call_line(rt, line)?;
    let beside = listener_start(rt, head)?;
    counters_line(rt, &beside)?;
    Ok(beside)
}

// The record of a line `given`.
fn given(head: &Group, rest: &[u8]) -> Station {
    station_of(counters_of(head), head.number16(22), rest)
}

fn given_line(rt: &impl Print, head: &Group, rest: &[u8]) -> io::Result<Station> {
    let s = given(head, rest);
    text(rt, b"given\n")?;
    record_line(rt, &s)?;
    Ok(s)
}

// The record with the position and the calendar of a line `position`.
fn station_at(rt: &impl Print, s: Station, head: &Group, rest: &[u8]) -> io::Result<Station> {
    let counters = counters_at(s.counters, head, rest);
    owned_line(rt, &counters)?;
    Ok(Station { counters, ..s })
}

// A line that is no call of the station; a note leaves all as it was.
fn set(rt: &impl Print, r: Records, line: &[u8], head: &Group, rest: &[u8]) -> io::Result<Records> {
    match word(line) {
        b"listener" => Ok(Records {
            beside: start_beside(rt, line, head)?,
            ..r
        }),
        b"keep" => Ok(Records { kept: r.last, ..r }),
        b"again" => Ok(Records { last: r.kept, ..r }),
        b"given" => Ok(Records {
            last: given_line(rt, head, rest)?,
            ..r
        }),
        b"recording" => Ok(Records {
            recording: *head,
            ..r
        }),
        b"position" => Ok(Records {
            last: station_at(rt, r.last, head, rest)?,
            ..r
        }),
        b"show" => {
            owned_line(rt, &r.last.counters)?;
            Ok(r)
        }
        _ => Ok(r),
    }
}

// One line.
fn case(rt: &impl Print, r: Records, line: &[u8]) -> io::Result<Records> {
    let (head, rest) = split_group(line);
    match call_of(line, &head) {
        Some(call) => make(rt, r, line, call, &head),
        None => set(rt, r, line, &head, rest),
    }
}

// The cases of the next buffer.
fn next_cases(rt: &(impl Input + Print), first: Records) -> io::Result<Records> {
    let mut space = [0u8; 65536];
    let n = read_full(&mut rt.reader(), &mut space)?;
    let mut r = first;
    for line in space[..n].split(|byte| *byte == b'\n') {
        r = case(rt, r, line)?;
    }
    Ok(r)
}

fn main(rt: HostRuntime) -> io::Result<()> {
    let none = whole(b"");
    let s = given(&none, b"");
    let first = Records {
        last: s,
        kept: s,
        beside: counters_of(&none),
        recording: none,
    };
    let r = next_cases(&rt, first)?;
    next_cases(&rt, r)?;
    Ok(())
}
