// Reading the numbers of an offer or a hold from a record of `rehearse`, which is handed over without its CR LF; and what those of a start are.

#![tactic(auto)]

ghost use Rattle.std.specs.Prelude.{◌≡◌, drop};
ghost use Rattle.fields.specs.Fields.{parts};
ghost use Rattle.call_fields.specs.CallFields.{offer_in};

use fields::field_at;
use number_lists::NumberList;

// An offer's or a hold's index and bytes.
#[derive(Clone, Copy)]
pub struct OfferFields {
    pub index: u16,
    pub bytes: u32,
}

// A start's m, n and indexes.
#[derive(Clone, Copy)]
pub struct StartFields {
    pub m: u8,
    pub n: u8,
    pub indexes: NumberList,
}

// The two numbers of an offer or a hold, whose fields begin at place start. None: they break the form.
pub fn offer_fields(bytes: &[u8], start: usize) -> Option<OfferFields>
    ensures { result ≡ offer_in (parts (drop start bytes.now)) }
{
    let one = field_at(bytes, start)?;
    if one.last {
        return None;
    }
    if 65535 < one.value {
        return None;
    }
    let two = field_at(bytes, one.next)?;
    if !two.last {
        return None;
    }
    Some(OfferFields {
        index: one.value as u16,
        bytes: two.value,
    })
}
