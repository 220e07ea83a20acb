// Stations' records, calendars and answers as comma-separated lines, and records out of the lines of cases, for the programs that check by
// running.
//
// A record has m, n, the next group, H, N, eight RQ, eight Open marks, the index, and then the condition of the short message and that of
// the long one, each its word and three numbers, 0 where there is nothing to say: free; fresh and its total; asked, group, minislot, total;
// resolving, group, place, total; urgent and its place; long, first, left, total; held and its total. Calendar and position are not among
// them: `position,P owned`, with a pair such as `,5:7` for each position that has an owner, is written where they are asked for.

#![tactic(auto)]

ghost use Rattle.std.specs.Prelude.{◌≡◌, length};

use calendar_entries::FREE;
use rules::{
    Answer, CalendarAnswer, Condition, Counters, MessageRecord, StartAnswer, Station, Turn, Which,
    Writing,
};
use runs_cases::{Group, split_group, word};
use runs_text::{fields, text};
use std::{array, io};

// ---- as lines

// m, n, the next group, H, N, eight RQ and eight Open marks, with a comma in front of each.
pub fn counters_fields(rt: &impl Print, c: &Counters) -> io::Result<()> {
    print!(rt;
        ",{},{},{},{},{}",
        c.minislots, c.groups, c.next, c.urgent, c.long
    )?;
    fields(rt, &c.resolution)?;
    for opened in &c.opened {
        text(rt, if *opened { b",yes" } else { b",no" })?;
    }
    Ok(())
}

fn condition_fields(rt: &impl Print, condition: Condition) -> io::Result<()> {
    match condition {
        Condition::Free => print!(rt; ",free,0,0,0"),
        Condition::Fresh { total } => print!(rt; ",fresh,{total},0,0"),
        Condition::Asked {
            group,
            minislot,
            total,
        } => print!(rt; ",asked,{group},{minislot},{total}"),
        Condition::Resolving {
            group,
            place,
            total,
        } => print!(rt; ",resolving,{group},{place},{total}"),
        Condition::Urgent { place } => print!(rt; ",urgent,{place},0,0"),
        Condition::Long { first, left, total } => print!(rt; ",long,{first},{left},{total}"),
        Condition::Held { total } => print!(rt; ",held,{total},0,0"),
    }
}

pub fn record_line(rt: &impl Print, s: &Station) -> io::Result<()> {
    text(rt, b"record")?;
    counters_fields(rt, &s.counters)?;
    print!(rt; ",{}", s.index)?;
    condition_fields(rt, s.short.condition)?;
    condition_fields(rt, s.long.condition)?;
    text(rt, b"\n")
}

pub fn refused_line(rt: &impl Print, number: u8) -> io::Result<()> {
    println!(rt; "refused,{number}")
}

// What a writing answers if it goes through: the slots of the message.
pub fn total_line(rt: &impl Print, w: Writing, total: u8) -> io::Result<()> {
    match w {
        Writing::Offer { .. } => println!(rt; "taken,{total}"),
        Writing::Hold { .. } => println!(rt; "held,{total}"),
        Writing::Commit { .. } => println!(rt; "committed,{total}"),
        Writing::Withdraw { .. } => println!(rt; "withdrawn,{total}"),
    }
}

// The answer to a start.
pub fn start_line(rt: &impl Print, answer: StartAnswer) -> io::Result<()> {
    match answer {
        StartAnswer::Ready => text(rt, b"ready\n"),
        StartAnswer::Refused(number) => refused_line(rt, number),
    }
}

// The turn of a slot that went through, an owned one with its owner.
pub fn went_text(rt: &impl Print, turn: Turn) -> io::Result<()> {
    match turn {
        Turn::Owned { owner } => print!(rt; "went,owned,{owner}"),
        Turn::Urgent => print!(rt; "went,urgent"),
        Turn::Long => print!(rt; "went,long"),
        Turn::Resolve => print!(rt; "went,resolve"),
        Turn::Open => print!(rt; "went,open"),
    }
}

// The answer to a calendar.
pub fn set_line(rt: &impl Print, answer: CalendarAnswer) -> io::Result<()> {
    match answer {
        CalendarAnswer::Set => text(rt, b"set\n"),
        CalendarAnswer::Refused(number) => refused_line(rt, number),
    }
}

// The answer to a call on a channel.
pub fn answer_line(rt: &impl Print, answer: Answer) -> io::Result<()> {
    match answer {
        Answer::Refused(number) => refused_line(rt, number),
        Answer::Taken(total) => println!(rt; "taken,{total}"),
        Answer::OnHold(total) => println!(rt; "held,{total}"),
        Answer::Committed(total) => println!(rt; "committed,{total}"),
        Answer::Withdrawn(total) => println!(rt; "withdrawn,{total}"),
        Answer::Set => text(rt, b"set\n"),
        Answer::Went {
            turn,
            senders,
            index,
            segment,
            delivered,
        } => {
            went_text(rt, turn)?;
            println!(rt; ",{senders},{index},{segment},{delivered}")
        }
    }
}

// The position of the coming slot, and each position that has an owner with it.
pub fn owned_text(rt: &impl Print, c: &Counters) -> io::Result<()> {
    print!(rt; "position,{} owned", c.position)?;
    for (position, entry) in c.calendar.iter().enumerate() {
        if *entry != FREE {
            print!(rt; ",{position}:{entry}")?;
        }
    }
    Ok(())
}

// ---- out of the lines of cases

// Counters out of the first 21 numbers of a group, with a calendar that has no owner, at its first position.
pub fn counters_of(g: &Group) -> Counters {
    Counters {
        minislots: g.number8(1),
        groups: g.number8(2),
        next: g.number8(3),
        urgent: g.number16(4),
        long: g.number16(5),
        resolution: array::from_fn(|i| g.number16(i.saturating_add(6))),
        opened: array::from_fn(|i| g.number(i.saturating_add(14)) == 1),
        calendar: [FREE; 24],
        position: 0,
    }
}

// The 24 entries of a calendar out of a group.
pub fn entries_of(g: &Group) -> [u16; 24]
    ensures { length result ≡ 24 }
{
    g.words(1, 1)
}

// Counters with a position, which a group has, and a calendar, whose entries the next group of the line has.
pub fn counters_at(c: Counters, head: &Group, rest: &[u8]) -> Counters {
    let (entries, _) = split_group(rest);
    Counters {
        calendar: entries_of(&entries),
        position: head.number8(1),
        ..c
    }
}

// A condition out of its word and the numbers of its group.
fn condition_of(word: &[u8], g: &Group) -> Condition {
    let total = g.number8(3);
    match word {
        b"fresh" => Condition::Fresh {
            total: g.number8(1),
        },
        b"asked" => Condition::Asked {
            group: g.number8(1),
            minislot: g.number8(2),
            total,
        },
        b"resolving" => Condition::Resolving {
            group: g.number8(1),
            place: g.number16(2),
            total,
        },
        b"urgent" => Condition::Urgent {
            place: g.number16(1),
        },
        b"long" => Condition::Long {
            first: g.number16(1),
            left: g.number8(2),
            total,
        },
        b"held" => Condition::Held {
            total: g.number8(1),
        },
        _ => Condition::Free,
    }
}

// A record with these counters and this index, with whose conditions the rest of a line begins, the short message's and then the long
// one's.
pub fn station_of(counters: Counters, index: u16, line: &[u8]) -> Station {
    let (short, rest) = split_group(line);
    let (long, _) = split_group(rest);
    Station {
        counters,
        index,
        short: MessageRecord {
            condition: condition_of(word(line), &short),
        },
        long: MessageRecord {
            condition: condition_of(word(rest), &long),
        },
    }
}

// The record that a number names: 1 the short one, any other the long one.
fn named(number: u64) -> Which {
    if number == 1 {
        Which::ShortOne
    } else {
        Which::LongOne
    }
}

// What a call that writes a message record asks for, by its word: an offer or a hold of so many bytes; a commit or a withdrawal of the
// record that is named. Other words are no such call.
pub fn writing(word: &[u8], number: u64) -> Option<Writing> {
    let bytes = number as usize;
    let which = named(number);
    match word {
        b"offer" => Some(Writing::Offer { bytes }),
        b"hold" => Some(Writing::Hold { bytes }),
        b"commit" => Some(Writing::Commit { which }),
        b"withdraw" => Some(Writing::Withdraw { which }),
        _ => None,
    }
}
