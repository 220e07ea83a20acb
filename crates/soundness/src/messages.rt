// The messages of a table, drawn out of its stations once.
ghost use Rattle.std.specs.Prelude.{◌≡◌, ◌≤◌, length};
ghost use Rattle.channel_rules.specs.Soundness.{messages_of};

use drawing::Messages;
use rules::{Station, TableMessage};

// The two message records of each station, first the short one, with the station's index.
#[tactic(auto, using(crate::proofs::Pairs::station_more))]
pub(crate) fn messages(stations: &[Station]) -> Messages
    requires { length stations.now ≤ 64 }
    ensures { result.items ≡ messages_of stations.now }
{
    let mut list = Messages::new();
    for s in stations {
        let index = s.index;
        list.push(TableMessage {
            index,
            condition: s.short.condition,
        });
        list.push(TableMessage {
            index,
            condition: s.long.condition,
        });
    }
    list
}
