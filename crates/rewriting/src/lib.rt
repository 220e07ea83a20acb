// A station with one of its message records written. Each function is equal to its rule of crate `rules`.

#![tactic(auto)]

ghost use Rattle.std.specs.Prelude.{◌≡◌};
ghost use Rattle.rules.specs.Writing.{with_record, writes, written_as};

use record_choice::record_of;
use rules::{Condition, MessageRecord, Station, Which, Writing};

// The station with another condition of one of its records.
fn with_record(o: Which, s: Station, k: Condition) -> Station
    ensures { result ≡ with_record o s k }
{
    match o {
        Which::ShortOne => Station {
            short: MessageRecord { condition: k },
            ..s
        },
        Which::LongOne => Station {
            long: MessageRecord { condition: k },
            ..s
        },
    }
}

// Where the record stands after a writing that goes through, by its slot total.
fn condition_after(w: Writing, total: u8) -> Condition
    ensures { result ≡ written_as w total }
{
    match w {
        Writing::Offer { .. } | Writing::Commit { .. } => Condition::Fresh { total },
        Writing::Hold { .. } => Condition::Held { total },
        Writing::Withdraw { .. } => Condition::Free,
    }
}

// The station after a writing that goes through, by its slot total.
pub fn rewrite(s: Station, w: Writing, total: u8) -> Station
    ensures { result ≡ with_record (writes w) s (written_as w total) }
{
    with_record(record_of(w), s, condition_after(w, total))
}
