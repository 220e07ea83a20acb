// The requests that the messages of a table have on the wire, and the row that one group's requests make.

#![tactic(auto)]

ghost use Rattle.std.specs.Prelude.{◌≡◌};
ghost use Rattle.asked_rows.specs.Asked.{requests_of, carried_row};

use arrayvec::ArrayVec;
use drawing::Messages;
use minislot::Minislot;
use requests::{carry, place};
use rules::Condition;

// A request on the wire: where it was made, its station's index, and its slot total.
#[derive(Clone, Copy, Default)]
pub struct WireRequest {
    pub group: u8,
    pub minislot: u8,
    pub index: u16,
    pub total: u8,
}

// The requests of a table's messages, one each at most.
pub type Requests = ArrayVec<WireRequest, 128>;

// The requests of those messages that are asked.
pub fn requests(messages: &Messages) -> Requests
    ensures { result.items ≡ requests_of messages.now.items }
{
    let mut requests = Requests::new();
    for m in messages.as_slice() {
        if let Condition::Asked {
            group,
            minislot,
            total,
        } = m.condition
        {
            requests.push(WireRequest {
                group,
                minislot,
                index: m.index,
                total,
            });
        }
    }
    requests
}

// The row that one group's requests make. A word is looked up only for a request of the row. Where it is inlined, the compiler keeps the
// row in single words and moves all of them for each request.
#[inline(never)]
pub fn row_of(requests: &[WireRequest], group: u8) -> [Minislot; 8]
    ensures { result ≡ carried_row group requests.now }
{
    let mut row = [Minislot { word: 0, count: 0 }; 8];
    for a in requests {
        if a.group == group {
            // a name of its own: an array that a call returns is not proved where it goes straight into one that is there
            let joined = place(a.minislot, carry(a.index, a.total), row);
            row = joined;
        }
    }
    row
}
