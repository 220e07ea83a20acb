// A call of the channel on the first records of a room by value: they are lent to the call and taken back, so that a caller needs no
// reference of its own. For each call a walk over the lent part, and the call for any count.

#![tactic(auto)]

ghost use Rattle.std.specs.Prelude.{◌≡◌, ◌≤◌};
ghost use Rattle.channel_rules.specs.ChannelCalls.{channel_start_of, channel_write_of, channel_calendar_of, channel_slot_of};
ghost use Rattle.lent_channel.specs.Lent.{lent_of, start_lent_of, call_lent_of};

use calls::{CallReply, StartReply};
use drawing::least;
use rules::{Station, WireRow, Writing};

// The room after a start on its first records, and the start's result.
#[derive(Clone, Copy)]
pub struct StartLent {
    pub stations: [Station; 65],
    pub reply: StartReply,
}

// The room after a writing, a calendar or a slot on its first records, and the call's result.
#[derive(Clone, Copy)]
pub struct CallLent {
    pub stations: [Station; 65],
    pub reply: CallReply,
}

// ---- starting

fn start_part(
    stations: [Station; 65],
    count: usize,
    wire: [WireRow; 8],
    m: u8,
    n: u8,
    indexes: &[u16],
) -> StartLent
    requires { count ≤ 65 }
    ensures { result ≡ start_lent_of stations count (channel_start_of (lent_of stations count wire) m n indexes.now) }
{
    let mut table = stations;
    let reply = channel::start(&mut table[..count], wire, m, n, indexes);
    StartLent {
        stations: table,
        reply,
    }
}

// A start of the first `count` records, or of all 65 where there are no more.
pub fn start_lent(
    stations: [Station; 65],
    count: usize,
    wire: [WireRow; 8],
    m: u8,
    n: u8,
    indexes: &[u16],
) -> StartLent
    ensures { result ≡ start_lent_of stations count (channel_start_of (lent_of stations count wire) m n indexes.now) }
{
    start_part(stations, least(count, 65), wire, m, n, indexes)
}

// ---- writing a message record

fn write_part(
    stations: [Station; 65],
    count: usize,
    wire: [WireRow; 8],
    index: u16,
    w: Writing,
) -> CallLent
    requires { count ≤ 65 }
    ensures { result ≡ call_lent_of stations count (channel_write_of (lent_of stations count wire) index w) }
{
    let mut table = stations;
    let reply = channel_write::write(&mut table[..count], wire, index, w);
    CallLent {
        stations: table,
        reply,
    }
}

// A writing of a station of the first `count` records, or of all 65 where there are no more.
pub fn write_lent(
    stations: [Station; 65],
    count: usize,
    wire: [WireRow; 8],
    index: u16,
    w: Writing,
) -> CallLent
    ensures { result ≡ call_lent_of stations count (channel_write_of (lent_of stations count wire) index w) }
{
    write_part(stations, least(count, 65), wire, index, w)
}

// ---- setting a calendar

fn calendar_part(
    stations: [Station; 65],
    count: usize,
    wire: [WireRow; 8],
    entries: [u16; 24],
) -> CallLent
    requires { count ≤ 65 }
    ensures { result ≡ call_lent_of stations count (channel_calendar_of (lent_of stations count wire) entries) }
{
    let mut table = stations;
    let reply = channel_calendar::calendar(&mut table[..count], wire, entries);
    CallLent {
        stations: table,
        reply,
    }
}

// A calendar of the first `count` records, or of all 65 where there are no more.
pub fn calendar_lent(
    stations: [Station; 65],
    count: usize,
    wire: [WireRow; 8],
    entries: [u16; 24],
) -> CallLent
    ensures { result ≡ call_lent_of stations count (channel_calendar_of (lent_of stations count wire) entries) }
{
    calendar_part(stations, least(count, 65), wire, entries)
}

// ---- a slot

fn slot_part(stations: [Station; 65], count: usize, wire: [WireRow; 8], picks: &[u8]) -> CallLent
    requires { count ≤ 65 }
    ensures { result ≡ call_lent_of stations count (channel_slot_of (lent_of stations count wire) picks.now) }
{
    let mut table = stations;
    let reply = channel_slot::slot(&mut table[..count], wire, picks);
    CallLent {
        stations: table,
        reply,
    }
}

// A slot of the first `count` records, or of all 65 where there are no more.
pub fn slot_lent(
    stations: [Station; 65],
    count: usize,
    wire: [WireRow; 8],
    picks: &[u8],
) -> CallLent
    ensures { result ≡ call_lent_of stations count (channel_slot_of (lent_of stations count wire) picks.now) }
{
    slot_part(stations, least(count, 65), wire, picks)
}
