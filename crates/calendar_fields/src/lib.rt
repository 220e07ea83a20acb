// Reading the entries of a calendar from a record of `rehearse`, which is handed over without its CR LF.

#![tactic(auto)]

ghost use Rattle.std.specs.Prelude.{◌≡◌, take, drop};
ghost use Rattle.fields.specs.Fields.{parts};
ghost use Rattle.calendar_fields.specs.CalendarFields.{calendar_in};

use number_lists::numbers_from;

// A calendar has so many entries.
const POSITIONS: usize = 24;

// The first 24 of the numbers.
fn first_entries(values: [u16; 256]) -> [u16; 24]
    ensures { result ≡ take 24 values }
{
    let mut entries = [0u16; 24];
    entries.copy_from_slice(&values[..POSITIONS]);
    entries
}

// The entries of a calendar, whose fields begin at place start. None: they break the form, or are not as many as they must be.
pub fn calendar_fields(bytes: &[u8], start: usize) -> Option<[u16; 24]>
    ensures { result ≡ calendar_in (parts (drop start bytes.now)) }
{
    let list = numbers_from(bytes, start, 65535)?;
    if list.count != POSITIONS {
        return None;
    }
    Some(first_entries(list.values))
}
