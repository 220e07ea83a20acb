// Tables and wires by value for the programs that check by running: one with something altered, and one after a call.

#![tactic(auto)]

use coming_rules::ComingAnswer;
use local_channel::{LocalCalled, LocalChannel, LocalStarted};
use minislot::Minislot;
use rehearsing::blank;
use rules::{Station, Writing};
use std::array;

// ---- with something altered

// The same records, of which another number is lent.
pub fn with_count(c: LocalChannel, count: usize) -> LocalChannel {
    LocalChannel { count, ..c }
}

// Record k, counted from 0, is this one.
pub fn with_station(mut c: LocalChannel, k: usize, s: Station) -> LocalChannel {
    if k < 65 {
        c.stations[k] = s;
    }
    c
}

// Minislot j of group g, both counted from 0, has this word and count.
pub fn with_minislot(
    mut c: LocalChannel,
    g: usize,
    j: usize,
    word: u16,
    count: u8,
) -> LocalChannel {
    c.wire[g % 8].minislots[j % 8] = Minislot { word, count };
    c
}

// ---- after a call

// Station k of a driven channel has this index: they are 14 apart, and the first one is given.
pub fn index_of(k: usize, first: u8) -> u16 {
    (k % 65) as u16 * 14 + u16::from(first)
}

// A driven channel of so many stations.
pub fn started(count: usize, m: u8, n: u8, first: u8) -> LocalChannel {
    let indexes: [u16; 65] = array::from_fn(|k| index_of(k, first));
    begun(blank(count), m, n, &indexes[..count.min(65)]).channel
}

// The next six say nothing of the answer, so that a program that only runs them carries no contract of a channel along.

pub fn begun(c: LocalChannel, m: u8, n: u8, indexes: &[u16]) -> LocalStarted {
    local_channel::start(c, m, n, indexes)
}

pub fn written(c: LocalChannel, index: u16, w: Writing) -> LocalCalled {
    local_write::write(c, index, w)
}

pub fn offered(c: LocalChannel, index: u16, bytes: usize) -> LocalCalled {
    local_write::write(c, index, Writing::Offer { bytes })
}

pub fn calendared(c: LocalChannel, entries: [u16; 24]) -> LocalCalled {
    local_calendar::calendar(c, entries)
}

pub fn slotted(c: LocalChannel, picks: &[u8]) -> LocalCalled {
    local_slot::slot(c, picks)
}

// Who sends in the coming slots: as many as the list has entries.
pub fn foreseen(c: LocalChannel, list: &mut [u16]) -> ComingAnswer {
    local_coming::coming(c, list)
}
