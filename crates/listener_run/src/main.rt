// Listening, written out for comparison with a program that was made apart from this one.
//
// The cases come from standard input, a line each, and each line's answer follows it. A line `before` gives a record and a line `row`
// words and counts, for the calls after them: `value` listens by value, `lent` with the record lent, `place` from a place of what is lent.
// Each answers the turn or the refusal, and the record after. A line `start` has m and n, and is answered by the record. A record is m, n,
// the next group, H, N, the eight RQ and the eight Open marks (1 for yes).
//
// A line `position` after that of a record gives it a position and the 24 entries of a calendar (65535 where nobody owns it); from there
// on up to the next line `before` records are written with their position and the owners. A line `calendar` has the entries of a calendar
// that is set, and is answered by `set` or the refusal, and the record after with its position and the owners. The turn of an owned slot
// is `w` and the owner.
//
// A line `recording` is not written itself: it has a number that a recording is made from, n and m, and 40 rows of that recording are
// listened to in each of the three ways, one after the other, with the calendar that is given.

#![tactic(auto)]

mod recording;

ghost use Rattle.std.specs.Prelude.{◌≡◌};
ghost use Rattle.rules.specs.Listening.{listening_of};

use recording::recordings;
use rules::{CalendarAnswer, Counters, ListenAnswer, Listened, StartAnswer, Turn};
use runs_cases::{Group, split_group, whole, word};
use runs_files::read_full;
use runs_records::{counters_at, counters_of, entries_of, owned_text};
use runs_text::{fields, text};
use std::io;

// Listening by value, from a place of what is lent, or with the record lent.
#[derive(Clone, Copy)]
pub(crate) enum Way {
    Value,
    Place,
    Lent,
}

// What a line asks for.
#[derive(Clone, Copy)]
enum Call {
    Listen(Way),
    Start,
    Calendar,
    Before,
    Position,
    Row,
    Recording,
}

fn call_of(word: &[u8]) -> Option<Call> {
    match word {
        b"value" => Some(Call::Listen(Way::Value)),
        b"place" => Some(Call::Listen(Way::Place)),
        b"lent" => Some(Call::Listen(Way::Lent)),
        b"start" => Some(Call::Start),
        b"calendar" => Some(Call::Calendar),
        b"before" => Some(Call::Before),
        b"position" => Some(Call::Position),
        b"row" => Some(Call::Row),
        b"recording" => Some(Call::Recording),
        _ => None,
    }
}

// What the calls are made on: a record, whether its calendar is written, and a row or a recording.
#[derive(Clone, Copy)]
struct Given {
    counters: Counters,
    shown: bool,
    words: Group,
    counts: Group,
}

// ---- records and answers as text

fn record_text(rt: &impl Print, c: &Counters, shown: bool) -> io::Result<()> {
    print!(rt;
        " m,{} n,{} next,{} H,{} N,{} RQ",
        c.minislots, c.groups, c.next, c.urgent, c.long
    )?;
    fields(rt, &c.resolution)?;
    text(rt, b" Open")?;
    for opened in &c.opened {
        print!(rt; ",{}", u8::from(*opened))?;
    }
    if shown {
        text(rt, b" ")?;
        owned_text(rt, c)?;
    }
    Ok(())
}

// A turn by its letter, that of an owned slot with the owner.
fn letter_text(rt: &impl Print, turn: Turn) -> io::Result<()> {
    match turn {
        Turn::Owned { owner } => print!(rt; " w,{owner}"),
        Turn::Urgent => text(rt, b" u"),
        Turn::Long => text(rt, b" l"),
        Turn::Resolve => text(rt, b" r"),
        Turn::Open => text(rt, b" o"),
    }
}

fn refusal_text(rt: &impl Print, number: u8) -> io::Result<()> {
    print!(rt; " refused,{number}")
}

pub(crate) fn heard_text(rt: &impl Print, heard: &Listened, shown: bool) -> io::Result<()> {
    match heard.answer {
        ListenAnswer::Went(turn) => letter_text(rt, turn)?,
        ListenAnswer::Refused(number) => refusal_text(rt, number)?,
    }
    record_text(rt, &heard.counters, shown)
}

// ---- the calls

fn start_text(rt: &impl Print, m: u8, n: u8) -> io::Result<()> {
    let started = listener::start(m, n);
    match started.answer {
        StartAnswer::Ready => text(rt, b" ready")?,
        StartAnswer::Refused(number) => refusal_text(rt, number)?,
    }
    record_text(rt, &started.counters, false)
}

fn calendar_text(rt: &impl Print, c: Counters, entries: [u16; 24]) -> io::Result<()> {
    let set = listener::set_calendar(c, entries);
    match set.answer {
        CalendarAnswer::Set => text(rt, b" set")?,
        CalendarAnswer::Refused(number) => refusal_text(rt, number)?,
    }
    record_text(rt, &set.counters, true)
}

// The lent form: the record is lent for the row, and is handed on as it is found after.
fn lent(c: Counters, words: &[u16], counts: &[u8]) -> Listened
    ensures { result ≡ listening_of c words.now counts.now }
{
    let mut record = c;
    let answer = lent_listener::listen_lent(&mut record, words, counts);
    Listened {
        answer,
        counters: record,
    }
}

pub(crate) fn heard_by(
    way: Way,
    c: Counters,
    words: &[u16],
    counts: &[u8],
    place: usize,
) -> Listened {
    match way {
        Way::Value => listening::listen(c, words, counts),
        Way::Place => listening::listen_at(c, words, counts, place),
        Way::Lent => lent(c, words, counts),
    }
}

fn listen_text(rt: &impl Print, s: &Given, way: Way, place: usize) -> io::Result<()> {
    let words = s.words.words(1, 1);
    let counts = s.counts.counts(1, 1);
    let words = &words[..s.words.count()];
    let counts = &counts[..s.counts.count()];
    let heard = heard_by(way, s.counters, words, counts, place);
    heard_text(rt, &heard, s.shown)
}

// ---- the cases

// What is given after a line that is written, with its answer behind it.
fn answered(rt: &impl Print, s: Given, call: Call, line: &[u8]) -> io::Result<Given> {
    let (head, rest) = split_group(line);
    match call {
        Call::Listen(way) => {
            listen_text(rt, &s, way, head.number(1) as usize)?;
            Ok(s)
        }
        Call::Start => {
            start_text(rt, head.number8(1), head.number8(2))?;
            Ok(s)
        }
        Call::Calendar => {
            calendar_text(rt, s.counters, entries_of(&head))?;
            Ok(s)
        }
        Call::Before => Ok(Given {
            counters: counters_of(&whole(line)),
            shown: false,
            ..s
        }),
        Call::Position => Ok(Given {
            counters: counters_at(s.counters, &head, rest),
            shown: true,
            ..s
        }),
        Call::Row => {
            let (words, rest) = split_group(rest);
            let (counts, _) = split_group(rest);
            Ok(Given { words, counts, ..s })
        }
        // a recording is written by its rows alone
        Call::Recording => Ok(s),
    }
}

// A line `recording`: with the calendar that is given.
fn recorded(rt: &impl Print, s: &Given, line: &[u8]) -> io::Result<()> {
    let (head, _) = split_group(line);
    let p = head.number(1) as usize;
    recordings(
        rt,
        p,
        head.number8(2),
        head.number8(3),
        s.counters.calendar,
        s.shown,
    )
}

// One line.
fn case(rt: &impl Print, s: Given, line: &[u8]) -> io::Result<Given> {
    match call_of(word(line)) {
        None => Ok(s),
        Some(Call::Recording) => {
            recorded(rt, &s, line)?;
            Ok(s)
        }
        Some(call) => {
            text(rt, line)?;
            let after = answered(rt, s, call, line)?;
            text(rt, b"\n")?;
            Ok(after)
        }
    }
}

fn main(rt: HostRuntime) -> io::Result<()> {
    let mut space = [0u8; 65536];
    let n = read_full(&mut rt.reader(), &mut space)?;
    let none = whole(b"");
    let mut given = Given {
        counters: counters_of(&none),
        shown: false,
        words: none,
        counts: none,
    };
    for line in space[..n].split(|byte| *byte == b'\n') {
        given = case(&rt, given, line)?;
    }
    Ok(())
}
