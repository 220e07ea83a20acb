// Reading an offer, a hold, a commit or a withdrawal from a record of `rehearse`, which is handed over without its CR LF. None: the record
// breaks the form.

#![tactic(auto)]

ghost use Rattle.std.specs.Prelude.{◌≡◌, drop};
ghost use Rattle.fields.specs.Fields.{parts};
ghost use Rattle.call_fields.specs.CallFields.{offer_in};
ghost use Rattle.which_fields.specs.WhichFields.{which_in};
ghost use Rattle.rules.specs.declared.Writing.TheVariants.{Offer, Hold, Commit, Withdraw};
ghost use Rattle.write_fields.specs.WriteFields.{new_by, held_by};

use call_fields::offer_fields;
use rules::Writing;
use which_fields::which_fields;

// A station's index and what is written there.
#[derive(Clone, Copy)]
pub struct WriteFields {
    pub index: u16,
    pub writing: Writing,
}

// An offer, whose numbers begin after `offer,`.
pub fn offer_in(bytes: &[u8]) -> Option<WriteFields>
    ensures { result ≡ new_by Offer (offer_in (parts (drop 6 bytes.now))) }
{
    let read = offer_fields(bytes, 6)?;
    Some(WriteFields {
        index: read.index,
        writing: Writing::Offer {
            bytes: read.bytes as usize,
        },
    })
}

// A hold, whose numbers begin after `hold,`.
pub fn hold_in(bytes: &[u8]) -> Option<WriteFields>
    ensures { result ≡ new_by Hold (offer_in (parts (drop 5 bytes.now))) }
{
    let read = offer_fields(bytes, 5)?;
    Some(WriteFields {
        index: read.index,
        writing: Writing::Hold {
            bytes: read.bytes as usize,
        },
    })
}

// A commit, whose index begins after `commit,`.
pub fn commit_in(bytes: &[u8]) -> Option<WriteFields>
    ensures { result ≡ held_by Commit (which_in (parts (drop 7 bytes.now))) }
{
    let read = which_fields(bytes, 7)?;
    Some(WriteFields {
        index: read.index,
        writing: Writing::Commit { which: read.which },
    })
}

// A withdrawal, whose index begins after `withdraw,`.
pub fn withdrawal_in(bytes: &[u8]) -> Option<WriteFields>
    ensures { result ≡ held_by Withdraw (which_in (parts (drop 9 bytes.now))) }
{
    let read = which_fields(bytes, 9)?;
    Some(WriteFields {
        index: read.index,
        writing: Writing::Withdraw { which: read.which },
    })
}
