// Reading the numbers of a start from a record of `rehearse`, which is handed over without its CR LF.

#![tactic(auto)]

ghost use Rattle.std.specs.Prelude.{◌≡◌, ◌≤◌, IfSome};
ghost use Rattle.fields.specs.Fields.{parts};
ghost use Rattle.call_fields.specs.CallFields.{start_in};

use call_fields::StartFields;
use fields::field_at;
use number_lists::{no_numbers, numbers_from};

// The numbers of a start. None: they break the form.
pub fn start_fields(bytes: &[u8]) -> Option<StartFields>
    ensures fields { result ≡ start_in (parts bytes.now) }
    ensures count { IfSome result (λ s. s.indexes.count ≤ 256) }
{
    let one = field_at(bytes, 0)?;
    if one.last {
        return None;
    }
    if 255 < one.value {
        return None;
    }
    let two = field_at(bytes, one.next)?;
    if 255 < two.value {
        return None;
    }
    let (m, n) = (one.value as u8, two.value as u8);
    if two.last {
        return Some(StartFields {
            m,
            n,
            indexes: no_numbers(),
        });
    }
    let indexes = numbers_from(bytes, two.next, 65535)?;
    Some(StartFields { m, n, indexes })
}
