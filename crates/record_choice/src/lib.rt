// Which of a station's two message records a writing is for, and where the message of that record stands. Each function is equal to its
// rule of crate `rules`.

#![tactic(auto)]

ghost use Rattle.std.specs.Prelude.{◌≡◌};
ghost use Rattle.message.specs.Message.{fits_short};
ghost use Rattle.rules.specs.Writing.{record_for, record_in, writes};

use rules::{Condition, Station, Which, Writing};

// The bytes of the longest message that the short record holds.
const SHORT_LIMIT: usize = 48;

// Whether a message of this many bytes is one for the short record.
#[tactic(auto, unfolding(message::specs::Message::fits_short))]
fn fits_short(bytes: usize) -> bool
    ensures { result ≡ fits_short bytes }
{
    (1..=SHORT_LIMIT).contains(&bytes)
}

// The record that a message's length picks.
fn record_for(bytes: usize) -> Which
    ensures { result ≡ record_for bytes }
{
    if fits_short(bytes) {
        Which::ShortOne
    } else {
        Which::LongOne
    }
}

// The record that a writing is for: by its length, or as it names it.
pub fn record_of(w: Writing) -> Which
    ensures { result ≡ writes w }
{
    match w {
        Writing::Offer { bytes } | Writing::Hold { bytes } => record_for(bytes),
        Writing::Commit { which } | Writing::Withdraw { which } => which,
    }
}

// Where the message of one of a station's records stands.
pub fn record_in(o: Which, s: Station) -> Condition
    ensures { result ≡ record_in o s }
{
    match o {
        Which::ShortOne => s.short.condition,
        Which::LongOne => s.long.condition,
    }
}
