// A start of a channel: what it comes to, by its number.

#![tactic(auto)]

ghost use Rattle.std.specs.Prelude.{◌≡◌, ◌≤◌, length};
ghost use Rattle.rules.specs.StationCalls.{start_station};
ghost use Rattle.channel_rules.specs.ChannelCalls.{new_stations, blank_wire};
ghost use Rattle.table.specs.Loading.{load_of};
ghost use Rattle.starts.specs.Starting.{no_beginning, beginning_of};

use calls::StartReply;
use minislot::Minislot;
use rules::{Condition, MessageRecord, StartAnswer, Station, WireRow};
use start_numbers::start_number;
use table::{Loaded, blanks, hold};

// What a start comes to: the records to be written over the table (none where it is refused), and its reply.
#[derive(Clone, Copy)]
pub struct Beginning {
    pub loaded: Loaded,
    pub reply: StartReply,
}

// A station at the start: both of its message records are free.
fn start_station(m: u8, n: u8, index: u16) -> Station
    ensures { result ≡ start_station m n index }
{
    let free = MessageRecord {
        condition: Condition::Free,
    };
    Station {
        counters: counters::start(m, n),
        index,
        short: free,
        long: free,
    }
}

// The records of a new table, one for each index.
fn new_table(m: u8, n: u8, indexes: &[u16]) -> Loaded
    requires { length indexes.now ≤ 64 }
    ensures { result ≡ load_of (new_stations m n indexes.now) }
{
    let mut stations = blanks();
    for (i, index) in indexes.iter().enumerate() {
        stations[i] = start_station(m, n, *index);
    }
    hold(stations, indexes.len())
}

// A wire on which nothing was sent.
pub fn blank_wire() -> [WireRow; 8]
    ensures { result ≡ blank_wire }
{
    [WireRow {
        minislots: [Minislot { word: 0, count: 0 }; 8],
    }; 8]
}

#[tactic(auto, unfolding(table::specs::Loading::blank_of))]
fn refuse_start(wire: [WireRow; 8], number: u8) -> Beginning
    ensures { result ≡ no_beginning wire number }
{
    Beginning {
        loaded: hold(blanks(), 0),
        reply: StartReply {
            answer: StartAnswer::Refused(number),
            wire,
        },
    }
}

// A start on a table of `count` records.
#[tactic(auto, unfolding(crate::specs::Starting::beginning_of))]
pub fn begin(count: usize, wire: [WireRow; 8], m: u8, n: u8, indexes: &[u16]) -> Beginning
    ensures { result ≡ beginning_of count wire m n indexes.now }
{
    let number = start_number(count, m, n, indexes);
    if number != 0 {
        return refuse_start(wire, number);
    }
    Beginning {
        loaded: new_table(m, n, indexes),
        reply: StartReply {
            answer: StartAnswer::Ready,
            wire: blank_wire(),
        },
    }
}
