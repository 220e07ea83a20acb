// Reading how many coming slots are asked about, from a record of `rehearse`, which is handed over without its CR LF.

#![tactic(auto)]

ghost use Rattle.std.specs.Prelude.{◌≡◌, drop};
ghost use Rattle.fields.specs.Fields.{parts};
ghost use Rattle.coming_fields.specs.ComingFields.{coming_in};

use fields::field_at;

// The number of slots asked about, whose field begins at place start. None: it breaks the form.
pub fn coming_fields(bytes: &[u8], start: usize) -> Option<u16>
    ensures { result ≡ coming_in (parts (drop start bytes.now)) }
{
    let one = field_at(bytes, start)?;
    if 65535 < one.value {
        return None;
    }
    if !one.last {
        return None;
    }
    Some(one.value as u16)
}
