// The lines that `show` of `rehearse` prints of a channel's stations, written into a buffer. A line that does not fit is not written.

#![tactic(auto)]

ghost use Rattle.std.specs.Prelude.{◌≡◌, take};
ghost use Rattle.std.specs.List.{flat_map};
ghost use Rattle.condition_lines.specs.ConditionLines.{condition_line};
ghost use Rattle.decimals.specs.Putting.{put_at, place_after};
ghost use Rattle.programs.specs.Buffering.{put_lines, place_after_lines};
ghost use Rattle.message_lines.specs.MessageLines.{message_lines};

use condition_lines::{
    put_asked, put_free, put_fresh, put_held, put_long, put_resolving, put_urgent,
};
use drawing::least;
use rules::{Condition, MessageRecord, Station};

// The line of one of a station's message records: the station's index and the condition of the message. Each of the following gives the
// place after its lines.
fn put_message(out: &mut [u8], at: usize, call: u64, index: u16, message: MessageRecord) -> usize
    ensures buffer { out.new ≡ put_at out.old at (condition_line call index message.condition) }
    ensures reached { result ≡ place_after out.old at (condition_line call index message.condition) }
{
    match message.condition {
        Condition::Free => put_free(out, at, call, index),
        Condition::Fresh { total } => put_fresh(out, at, call, index, total),
        Condition::Asked {
            group,
            minislot,
            total,
        } => put_asked(out, at, call, index, group, minislot, total),
        Condition::Resolving {
            group,
            place,
            total,
        } => put_resolving(out, at, call, index, group, place, total),
        Condition::Urgent { place } => put_urgent(out, at, call, index, place),
        Condition::Long { first, left, total } => put_long(
            out, at, call, index, first, left, total,
        ),
        Condition::Held { total } => put_held(out, at, call, index, total),
    }
}

// A station's two lines: its short record's, then its long record's.
fn put_station(out: &mut [u8], at: usize, call: u64, s: &Station) -> usize
    ensures buffer { out.new ≡ put_lines out.old at (message_lines call s.now) }
    ensures reached { result ≡ place_after_lines out.old at (message_lines call s.now) }
{
    let second = put_message(out, at, call, s.index, s.short);
    put_message(out, second, call, s.index, s.long)
}

// The lines of each of the first `count` stations, or of all 65 where there are no more.
pub fn put_messages(
    out: &mut [u8],
    at: usize,
    call: u64,
    stations: [Station; 65],
    count: usize,
) -> usize
    ensures buffer { out.new ≡ put_lines out.old at (flat_map (message_lines call) (take count stations)) }
    ensures reached { result ≡ place_after_lines out.old at (flat_map (message_lines call) (take count stations)) }
{
    let mut to = at;
    for s in &stations[..least(count, 65)] {
        to = put_station(out, to, call, s);
    }
    to
}
