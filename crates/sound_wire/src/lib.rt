// A clause of a sound table (paper 01, "The channel") as code, over the messages of the table: each minislot of the wire equals the OR
// over the messages asked there.

#![tactic(auto)]

ghost use Rattle.std.specs.Prelude.{◌≡◌, length, get_or};
ghost use Rattle.listlaws.specs.Every.{every_from};
ghost use Rattle.requests.specs.Together.{silent};
ghost use Rattle.channel_rules.specs.Soundness.{same_minislot};
ghost use Rattle.sound_wire.specs.Wire.{wire_carries};

use asked_rows::{requests, row_of};
use drawing::{MOST_GROUPS, Messages};
use minislot::Minislot;
use rules::WireRow;

// The minislots of a row of the wire.
const MOST_MINISLOTS: usize = 8;

fn same_minislot(a: Minislot, b: Minislot) -> bool
    ensures { result ≡ same_minislot a b }
{
    a.word == b.word && a.count == b.count
}

// Whether two rows have the same minislots.
fn same_minislots(a: &[Minislot; 8], b: &[Minislot; 8]) -> bool
    ensures { (length a.now ≡ 8) × (result ≡ every_from (λ j slot. same_minislot slot (get_or b.now j silent)) 0 a.now) }
{
    for j in 0..MOST_MINISLOTS {
        if !same_minislot(a[j], b[j]) {
            return false;
        }
    }
    true
}

// The clause, row by row.
pub fn wire_sound(messages: &Messages, wire: &[WireRow; 8]) -> bool
    ensures { result ≡ wire_carries messages.now.items wire.now }
{
    let asked = requests(messages);
    for g in 0..MOST_GROUPS {
        let expected = row_of(asked.as_slice(), (g + 1) as u8);
        if !same_minislots(&wire[g].minislots, &expected) {
            return false;
        }
    }
    true
}
