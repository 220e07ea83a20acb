// Who is served at each of the first places of both transmission queues together, as many as are asked for (paper 02, T-07): the urgent
// queue's places come first. No place beyond them is looked at.

#![tactic(auto)]

ghost use Rattle.std.specs.Prelude.{◌≡◌, ◌-◌, min, take};
ghost use Rattle.served_places.specs.Served.{put_of, put_station_of, served_of};

use drawing::least;
use message_places::{Had, nobody_served, places_had};
use rules::Station;

// Puts an index at these places, as far as they are among the first w and the list has them.
fn put(served: &mut [u16], had: Had, w: usize, index: u16)
    ensures { served.new ≡ put_of served.old had.first (min had.count (w - had.first)) index }
{
    let first = had.first as usize;
    let last = least(first + had.count as usize, w);
    let end = least(last, served.len());
    for k in first..end {
        served[k] = index;
    }
}

// Puts a station's index at those of its two messages' places that are among the first w.
fn put_station(served: &mut [u16], h: u16, w: usize, s: Station)
    ensures { served.new ≡ put_station_of w h served.old s }
{
    put(served, places_had(h, s.short.condition), w, s.index);
    put(served, places_had(h, s.long.condition), w, s.index);
}

// Who is served at each of the first w places, of 1,024 at most, by the first `count` stations, or by all 64 where there are no more, where
// the urgent queue has h places. Nobody beyond them.
pub fn served(stations: [Station; 64], count: usize, h: u16, w: usize) -> [u16; 1024]
    ensures { result ≡ served_of w h (take count stations) }
{
    let n = least(count, 64);
    let mut served = nobody_served();
    for i in 0..n {
        put_station(&mut served, h, w, stations[i]);
    }
    served
}
