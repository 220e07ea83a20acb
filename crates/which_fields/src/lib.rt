// Reading the index and the record's name of a commit or a withdrawal from a record of `rehearse`, which is handed over without its CR LF.

#![tactic(auto)]

ghost use Rattle.std.specs.Prelude.{◌≡◌, drop};
ghost use Rattle.fields.specs.Fields.{parts};
ghost use Rattle.which_fields.specs.WhichFields.{named, which_in};

use fields::field_at;
use prefixes::is_word;
use rules::Which;

// A commit's or a withdrawal's index and the record that it names.
#[derive(Clone, Copy)]
pub struct WhichFields {
    pub index: u16,
    pub which: Which,
}

// The index beside the record that these bytes name, if they name one.
fn record_named(index: u16, name: &[u8]) -> Option<WhichFields>
    ensures { result ≡ named index name.now }
{
    if is_word(name, b"short") {
        return Some(WhichFields {
            index,
            which: Which::ShortOne,
        });
    }
    if is_word(name, b"long") {
        return Some(WhichFields {
            index,
            which: Which::LongOne,
        });
    }
    None
}

// The index and the record's name, whose fields begin at place start. The name is all that stands after the index and its comma: a comma
// more would be a byte of it, and no name has one. None: they break the form.
pub fn which_fields(bytes: &[u8], start: usize) -> Option<WhichFields>
    ensures { result ≡ which_in (parts (drop start bytes.now)) }
{
    let one = field_at(bytes, start)?;
    if one.last {
        return None;
    }
    if 65535 < one.value {
        return None;
    }
    record_named(one.value as u16, &bytes[one.next..])
}
