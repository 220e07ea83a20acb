// What the benchmark calls: channels of 64 stations under load, with calls repeated on the state as it is, so that the cost of one call is
// a difference of two runs; and, on tables of each kind, the test of a sound table and who sends in the coming slots.

#![tactic(auto)]

mod kinds;

use coming_rules::ComingAnswer;
use kinds::table_of;
use local_channel::LocalChannel;
use minislot::{Feedback, Reading, read};
use rules::{Answer, Station, WireRow};
use runs_arrivals::{ARRIVES, draw, picks_of, size};
use runs_tables::{foreseen, index_of, offered, slotted, started};
use soundness::sound;
use std::array;

// A sum that can't pass the type's limit.
fn plus(d: u64, x: u64) -> u64 {
    d % 1000000007 * 31 + x % 1000000007
}

fn digest_of(answer: Answer) -> u64 {
    match answer {
        Answer::Refused(number) => u64::from(number),
        Answer::Taken(total) => u64::from(total) + 100,
        Answer::OnHold(total) => u64::from(total) + 400,
        Answer::Committed(total) => u64::from(total) + 700,
        Answer::Withdrawn(total) => u64::from(total) + 1000,
        Answer::Set => 99,
        Answer::Went {
            senders,
            index,
            segment,
            delivered,
            ..
        } => {
            u64::from(index) * 16 + u64::from(senders) + u64::from(segment) + u64::from(delivered)
        }
    }
}

// ---- a channel under load

// A station is offered a message of some bytes, most often a short one, and a long one of 48 bytes more.
fn offered_both(c: LocalChannel, index: u16, bytes: usize) -> LocalChannel {
    let after = offered(c, index, bytes).channel;
    offered(after, index, bytes % 12193 + 48).channel
}

// One station in eight is offered both; most are not free.
fn arrived(c: LocalChannel, s: u64) -> LocalChannel {
    let mut c = c;
    for k in 0..64 {
        let station = k as u64;
        if draw(s, station, ARRIVES, 8) == 0 {
            c = offered_both(c, index_of(k, 0), size(s, station));
        }
    }
    c
}

// The same slot again, with other picks; what it leaves is thrown away.
fn slots_again(c: LocalChannel, times: u64) -> u64 {
    let mut d = 0;
    for i in 0..times {
        let picks = picks_of(i, 3);
        d = plus(d, digest_of(slotted(c, &picks[0..64]).answer));
    }
    d
}

// The picks of a slot alone, to be taken off what a slot again costs.
fn picks_again(times: u64) -> u64 {
    (0..times).fold(0, |d, i| plus(d, u64::from(picks_of(i, 3)[0])))
}

// The test of a sound table again.
fn checks_again(stations: [Station; 64], wire: [WireRow; 8], times: u64) -> u64 {
    let mut d = 0;
    for _ in 0..times {
        let yes = sound(stations, 64, wire);
        d = plus(d, if yes { 1 } else { 2 });
    }
    d
}

fn first_64(stations: &[Station; 65]) -> [Station; 64] {
    array::from_fn(|k| stations[k % 64])
}

fn all_again(c: LocalChannel, slots: u64, picks: u64, checks: u64) -> u64 {
    let d = plus(slots_again(c, slots), picks_again(picks));
    plus(d, checks_again(first_64(&c.stations), c.wire, checks))
}

// One round of a channel under load: arrivals, calls again, a slot.
fn round(c: LocalChannel, s: u64) -> LocalChannel {
    let picks = picks_of(s, 3);
    slotted(arrived(c, s), &picks[0..64]).channel
}

// So many rounds of a channel of 64 stations, three minislots and one group, with so many slots, picks and tests again in each.
#[unsafe(no_mangle)]
pub extern "C" fn bench_load(rounds: u64, slots: u64, picks: u64, checks: u64) -> u64 {
    let mut c = started(64, 3, 1, 0);
    let mut d = 0;
    for s in 0..rounds {
        c = round(c, s);
        d = plus(d, all_again(c, slots, picks, checks));
    }
    d
}

// The test of a table of one kind, so many times.
#[unsafe(no_mangle)]
pub extern "C" fn bench_check(kind: u64, groups: u8, times: u64) -> u64 {
    let table = table_of(kind, groups);
    checks_again(table.stations, table.wire, times)
}

// ---- who sends in the coming slots

fn digest_of_coming(answer: ComingAnswer) -> u64 {
    match answer {
        ComingAnswer::Until(slots) => slots as u64,
        ComingAnswer::Refused(number) => u64::from(number) + 1000000,
    }
}

// An entry of a list, so that each is looked at some time.
fn entry(list: &[u16], i: u64) -> u16 {
    list.get((i % 1024) as usize).copied().unwrap_or(0)
}

// The same call again.
fn coming_again(c: LocalChannel, list: &mut [u16], times: u64) -> u64 {
    let mut d = 0;
    for i in 0..times {
        d = plus(d, digest_of_coming(foreseen(c, list)));
        d = plus(d, u64::from(entry(list, i)));
    }
    d
}

// Room for 65 records: those of a table, and its last one again.
fn room_of(stations: &[Station; 64]) -> [Station; 65] {
    array::from_fn(|k| stations[k.min(63)])
}

// Who sends in so many of the coming slots, up to 1,024, of a table of one kind, so many times.
#[unsafe(no_mangle)]
pub extern "C" fn bench_coming(kind: u64, groups: u8, slots: u64, times: u64) -> u64 {
    let table = table_of(kind, groups);
    let c = LocalChannel {
        stations: room_of(&table.stations),
        count: 64,
        wire: table.wire,
    };
    let mut space = [0u16; 1024];
    let end = (slots % 1025) as usize;
    coming_again(c, &mut space[..end], times)
}

// ---- minislots and words

// What is read of a minislot, as a number.
fn heard(word: u16) -> u64 {
    match read(word, 1) {
        Reading::Heard(Feedback::Empty) => 1,
        Reading::Heard(Feedback::Single(index, _)) => u64::from(index),
        Reading::Heard(Feedback::Collide) => 2,
        Reading::Refused(number) => u64::from(number),
    }
}

// So many minislots read, their words going through the 4096 of twelve bits.
#[unsafe(no_mangle)]
pub extern "C" fn bench_read(times: u64) -> u64 {
    (0..times).fold(0, |d, i| plus(d, heard((i % 4096) as u16)))
}

// The same words' indexes alone.
#[unsafe(no_mangle)]
pub extern "C" fn bench_index(times: u64) -> u64 {
    (0..times).fold(0, |d, i| {
        plus(d, u64::from(indexing::index_of((i % 4096) as u16)))
    })
}
