// What the stations of a channel send in a slot, gathered one station after the other: the group's new row and the data senders.

#![tactic(auto)]

ghost use Rattle.std.specs.Prelude.{◌≡◌};
ghost use Rattle.requests.specs.Together.{placed, carries};
ghost use Rattle.channel_rules.specs.ChannelCalls.{speaks as speaks_of};
ghost use Rattle.sending.specs.Gathered.{silence as silence_of, station_request, one_more, with_data, gathered};

use minislot::Minislot;
use requests::{carry, place};
use rules::{Sent, SlotAnswer, StationSlot, Turn};

// Nobody has sent anything.
#[tactic(auto, unfolding(crate::specs::Gathered::silence))]
pub fn silence() -> Sent
    ensures { result ≡ silence_of }
{
    Sent {
        minislots: [Minislot { word: 0, count: 0 }; 8],
        senders: 0,
        index: 0,
        segment: 0,
    }
}

// A station's request, of its index and the slot total of the message that it asks for, joins its minislot of the row; 0 for none.
fn place_request(minislot: u8, index: u16, total: u8, row: [Minislot; 8]) -> [Minislot; 8]
    ensures { result ≡ placed minislot (carries (station_request index total)) row }
{
    if minislot == 0 {
        row
    } else {
        place(minislot, carry(index, total), row)
    }
}

// One data sender more, counted up to 255.
#[tactic(auto, unfolding(crate::specs::Gathered::one_more))]
fn one_more(senders: u8) -> u8
    ensures { result ≡ one_more senders }
{
    senders.saturating_add(1)
}

// Whether a station sends data: in an owned slot its owner alone, else whoever sends a segment of its message.
fn speaks(turn: Turn, index: u16, segment: u8) -> bool
    ensures { result ≡ speaks_of turn index segment }
{
    match turn {
        Turn::Owned { owner } => index == owner,
        _ => 0 < segment,
    }
}

// A station's data joins, if it sends any: a stream as segment 0. A lone sender is named as long as it is alone.
#[tactic(auto, unfolding(crate::specs::Gathered::with_data, crate::specs::Gathered::one_more))]
fn add_data(turn: Turn, index: u16, segment: u8, sent: Sent) -> Sent
    ensures { result ≡ with_data turn index segment sent }
{
    if !speaks(turn, index, segment) {
        return sent;
    }
    if sent.senders == 0 {
        return Sent {
            senders: 1,
            index,
            segment,
            ..sent
        };
    }
    Sent {
        senders: one_more(sent.senders),
        index: 0,
        segment: 0,
        ..sent
    }
}

// One station's slot joins those before it.
#[tactic(auto, unfolding(crate::specs::Gathered::gathered))]
pub fn gather(r: StationSlot, sent: Sent) -> Sent
    ensures { result ≡ gathered sent r }
{
    match r.answer {
        SlotAnswer::Went {
            turn,
            minislot,
            segment,
        } => {
            let index = r.station.index;
            let data = add_data(turn, index, segment, sent);
            Sent {
                minislots: place_request(minislot, index, r.request, data.minislots),
                ..data
            }
        }
        SlotAnswer::Refused(_) => sent,
    }
}
