// Tables of 64 stations of one kind each.
//
// With one message record of each station in use, or none. 0: all free. 1: short ones urgent. 2: long ones long, stretches of 255 slots one
// after another. 3: short ones resolving, 32 places of two. 4: long ones asked in one minislot. 5: long ones asked, one in each minislot of
// eight groups. 6: full counters, any conditions of both records. 7: as 3.
//
// With both in use. 8: as 1 and 2. 9: resolving, 64 places of a short one and of the next station's long one. 10: short ones asked in one
// minislot, and long ones in one of another group. 11: short ones as 1, and long ones resolving, 32 places of two.
//
// From 7 on the last station owns every position but one; in the others nobody owns any.
ghost use Rattle.std.specs.Prelude.{◌≤◌};

use minislot::Minislot;
use requests::{carry, place};
use rules::{Condition, Counters, MessageRecord, Station, WireRow};
use runs_arrivals::draw;
use std::array;

#[derive(Clone, Copy)]
pub(crate) struct Table {
    pub stations: [Station; 64],
    pub wire: [WireRow; 8],
}

// ---- the counters

// RQ of group g, from 0.
fn queue(g: usize, kind: u64, groups: u8) -> u16 {
    if kind == 6 {
        return if g < groups as usize { 4095 } else { 0 };
    }
    if 0 < g {
        return 0;
    }
    match kind {
        3 | 7 | 11 => 32,
        9 => 64,
        _ => 0,
    }
}

// The last position is free in each kind.
fn calendar_of(kind: u64) -> [u16; 24] {
    let owner = if kind < 7 { 65535 } else { 882 };
    let mut calendar = [owner; 24];
    calendar[23] = 65535;
    calendar
}

fn counters_of(kind: u64, groups: u8) -> Counters {
    let urgent = match kind {
        1 | 8 | 11 => 64,
        6 => 4095,
        _ => 0,
    };
    let long = match kind {
        2 | 8 => 16320,
        6 => 65535,
        _ => 0,
    };
    Counters {
        minislots: 8,
        groups,
        next: 1,
        urgent,
        long,
        resolution: array::from_fn(|g| queue(g, kind, groups)),
        opened: [true; 8],
        calendar: calendar_of(kind),
        position: 0,
    }
}

// ---- the messages of station k

// By the arithmetic rule, within the limits of full queues.
fn drawn_place(k: u16) -> u16
    ensures { result ≤ 4095 }
{
    (draw(1, k as u64, 2, 4095) % 4095 + 1) as u16
}

fn drawn_group(k: u16) -> u8 {
    (draw(1, k as u64, 3, 8) % 8 + 1) as u8
}

fn drawn_short(k: u16) -> Condition {
    let place = drawn_place(k);
    match draw(1, k as u64, 1, 3) {
        0 => Condition::Urgent { place },
        1 => Condition::Resolving {
            group: drawn_group(k),
            place,
            total: 1,
        },
        _ => Condition::Free,
    }
}

fn drawn_long(k: u16) -> Condition {
    let group = drawn_group(k);
    match draw(1, k as u64, 4, 3) {
        0 => Condition::Long {
            first: drawn_place(k) * 15,
            left: 255,
            total: 255,
        },
        1 => Condition::Asked {
            group,
            minislot: group,
            total: 255,
        },
        _ => Condition::Free,
    }
}

// At a place of group 1, from 0.
fn resolving(place: u16, total: u8) -> Condition {
    Condition::Resolving {
        group: 1,
        place: place % 64 + 1,
        total,
    }
}

// In a group and a minislot, both from 0.
fn asked(group: u16, minislot: u16, total: u8) -> Condition {
    Condition::Asked {
        group: (group % 8) as u8 + 1,
        minislot: (minislot % 8) as u8 + 1,
        total,
    }
}

fn short_of(kind: u64, k: u16) -> Condition {
    let i = k % 64;
    match kind {
        1 | 8 | 11 => Condition::Urgent { place: i + 1 },
        3 | 7 => resolving(i / 2, 1),
        6 => drawn_short(k),
        9 => resolving(i, 1),
        10 => asked(0, 0, 1),
        _ => Condition::Free,
    }
}

fn long_of(kind: u64, k: u16) -> Condition {
    let i = k % 64;
    match kind {
        2 | 8 => Condition::Long {
            first: i * 255 + 1,
            left: 255,
            total: 255,
        },
        4 => asked(0, 0, 255),
        5 => asked(i / 8, i, 255),
        6 => drawn_long(k),
        9 => resolving(i + 63, 255),
        10 => asked(1, 0, 255),
        11 => resolving(i / 2, 255),
        _ => Condition::Free,
    }
}

fn station_of(kind: u64, counters: Counters, k: u16) -> Station {
    Station {
        counters,
        index: k % 64 * 14,
        short: MessageRecord {
            condition: short_of(kind, k),
        },
        long: MessageRecord {
            condition: long_of(kind, k),
        },
    }
}

// ---- the tables

// The wire with the request of a message, if it is asked.
fn with_request(wire: [WireRow; 8], index: u16, m: MessageRecord) -> [WireRow; 8] {
    let Condition::Asked {
        group,
        minislot,
        total,
    } = m.condition
    else {
        return wire;
    };
    let mut wire = wire;
    let g = (usize::from(group) + 7) % 8;
    let minislots = place(minislot, carry(index, total), wire[g].minislots);
    wire[g] = WireRow { minislots };
    wire
}

// The wire that belongs to a table.
fn wire_of(stations: &[Station; 64]) -> [WireRow; 8] {
    let silent = WireRow {
        minislots: [Minislot { word: 0, count: 0 }; 8],
    };
    let mut wire = [silent; 8];
    for s in stations {
        let half = with_request(wire, s.index, s.short);
        wire = with_request(half, s.index, s.long);
    }
    wire
}

pub(crate) fn table_of(kind: u64, groups: u8) -> Table {
    let counters = counters_of(kind, groups);
    let stations = array::from_fn(|k| station_of(kind, counters, (k % 64) as u16));
    let wire = wire_of(&stations);
    Table { stations, wire }
}
