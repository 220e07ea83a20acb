// Reading the fields of a record, which is handed over without its CR LF: one field, and the first record's two. Nothing here knows the
// protocol.

#![tactic(auto)]

ghost use Rattle.std.specs.Prelude.{◌≡◌, drop};
ghost use Rattle.fields.specs.Fields.{parts};
ghost use Rattle.fields.specs.Steps.{field_of};
ghost use Rattle.fields.specs.First.{first_of, first_answer, first_answer_of};

// One field: its number, the place after the comma that ends it, and whether the record's end ends it instead.
#[derive(Clone, Copy)]
pub struct Field {
    pub value: u32,
    pub next: usize,
    pub last: bool,
}

// The first record's two numbers.
#[derive(Clone, Copy)]
pub struct First {
    pub m: u32,
    pub n: u32,
}

// The most bytes of a record.
const LONGEST: usize = 128;
// The most digits of a field.
const MOST_DIGITS: usize = 5;

// The field that begins at place start, if there is one.
pub fn field_at(bytes: &[u8], start: usize) -> Option<Field>
    ensures { result ≡ field_of start (parts (drop start bytes.now)) }
{
    let mut value: u32 = 0;
    let mut digits: usize = 0;
    for at in start..bytes.len() {
        let b = bytes[at];
        if b == b',' {
            if digits == 0 {
                return None;
            }
            return Some(Field {
                value,
                next: at + 1,
                last: false,
            });
        }
        if b < b'0' || b'9' < b || digits == MOST_DIGITS {
            return None;
        }
        value = value * 10 + u32::from(b - b'0');
        digits += 1;
    }
    if digits == 0 {
        return None;
    }
    Some(Field {
        value,
        next: bytes.len() + 1,
        last: true,
    })
}

// The two numbers of the first record, if it has two and no more.
pub fn first_fields(bytes: &[u8]) -> Option<First>
    ensures first { result ≡ first_of bytes.now }
    ensures answer { first_answer result ≡ first_answer_of bytes.now }
{
    if LONGEST < bytes.len() {
        return None;
    }
    let one = field_at(bytes, 0)?;
    if one.last {
        return None;
    }
    let two = field_at(bytes, one.next)?;
    if !two.last {
        return None;
    }
    Some(First {
        m: one.value,
        n: two.value,
    })
}
