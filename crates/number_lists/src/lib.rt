// Reading the numbers of a record's fields from a place on, as a list. The record is handed over without its CR LF.
// Nothing here knows the protocol.

#![tactic(auto)]

ghost use Rattle.std.specs.Prelude.{◌≡◌, map, [], ◌≤◌, drop, IfSome};
ghost use Rattle.fields.specs.Fields.{parts};
ghost use Rattle.number_lists.specs.NumberList.{list_of, list_with, low_byte};

use fields::field_at;

// The numbers of the fields of a record from a place on: how many there are, and the numbers (0 where there are fewer).
// The array stays beside its count: `list_with` tells what stands behind the numbers, and nothing is allocated here.
#[derive(Clone, Copy)]
pub struct NumberList {
    pub count: usize,
    pub values: [u16; 256],
}

// No more numbers than this: a record of 512 bytes has no more fields.
const MOST: usize = 256;

// No numbers.
pub fn no_numbers() -> NumberList
    ensures { result ≡ list_with [] }
{
    NumberList {
        count: 0,
        values: [0u16; 256],
    }
}

// The fields from place start on, each a number of at most `most`. None: a field breaks the form or is above `most`, or there are more
// than 256.
pub fn numbers_from(bytes: &[u8], start: usize, most: u16) -> Option<NumberList>
    ensures list { result ≡ list_of most (parts (drop start bytes.now)) }
    ensures count { IfSome result (λ l. l.count ≤ 256) }
{
    let mut values = [0u16; 256];
    let mut at = start;
    for read in 0..MOST {
        let field = field_at(bytes, at)?;
        if u32::from(most) < field.value {
            return None;
        }
        values[read] = field.value as u16;
        if field.last {
            return Some(NumberList {
                count: read + 1,
                values,
            });
        }
        at = field.next;
    }
    None
}

// The same numbers as bytes, for a list whose numbers were read with a `most` of 255.
pub fn low_bytes(values: [u16; 256]) -> [u8; 256]
    ensures { result ≡ map low_byte values }
{
    let mut bytes = [0u8; 256];
    for (i, value) in values.iter().enumerate() {
        bytes[i] = (value % 256) as u8;
    }
    bytes
}
