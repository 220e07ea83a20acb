// Writing into a buffer: decimal numbers and bytes, and what every writer of lines shares. What does not fit is not written at all.
// Nothing here knows the protocol, nor which lines are written.

#![tactic(auto)]

ghost use Rattle.std.specs.Prelude.{◌≡◌, ◌+◌, ◌≤◌, leb, length};
ghost use Rattle.std.proofs.lemmas.List.Edits.{sets};
ghost use Rattle.decimals.specs.Decimal.{digits_of, HasDigits};
ghost use Rattle.decimals.specs.Printing.{field_bytes};
ghost use Rattle.decimals.specs.Putting.{put_at, place_after};

pub const COMMA: u8 = 44;

pub const CR: u8 = 13;

pub const LF: u8 = 10;

// How many digits a number has.
pub fn digits(value: u64) -> usize
    ensures count { HasDigits value result }
    ensures few { result ≤ 20 }
{
    // 0 is written with one digit, as 1 is
    value.max(1).ilog10() as usize + 1
}

// Whether so many bytes fit from place at on.
pub fn has_room(room: usize, at: usize, size: usize) -> bool
    ensures { result ≡ leb (at + size) room }
{
    size <= room && at <= room - size
}

// Writes the digits of value, of which there are size, from place at on, and gives the place after them.
pub fn write_number(out: &mut [u8], at: usize, size: usize, value: u64) -> usize
    requires { HasDigits value size × (at + size ≤ length out.old) }
    ensures buffer { out.new ≡ sets out.old at (digits_of value) }
    ensures reached { result ≡ at + size }
{
    let mut left = value;
    for to in (at + 1..at + size).rev() {
        out[to] = 48 + (left % 10) as u8;
        left /= 10;
    }
    out[at] = 48 + left as u8;
    at + size
}

// Writes a number and one byte after it.
pub fn write_field(out: &mut [u8], at: usize, size: usize, value: u64, after: u8) -> usize
    requires { HasDigits value size × (at + size + 1 ≤ length out.old) }
    ensures buffer { out.new ≡ sets out.old at (field_bytes value after) }
    ensures reached { result ≡ at + size + 1 }
{
    let to = write_number(out, at, size, value);
    out[to] = after;
    to + 1
}

// Writes bytes from place at on, and gives the place after them.
pub fn write_bytes(out: &mut [u8], at: usize, bytes: &[u8]) -> usize
    requires { at + length bytes.now ≤ length out.old }
    ensures buffer { out.new ≡ sets out.old at bytes.now }
    ensures reached { result ≡ at + length bytes.now }
{
    let after = at + bytes.len();
    out[at..after].copy_from_slice(bytes);
    after
}

// A number in decimal, at place at if it fits there; gives the place after it, or at.
pub fn put_number(out: &mut [u8], at: usize, value: u64) -> usize
    ensures buffer { out.new ≡ put_at out.old at (digits_of value) }
    ensures reached { result ≡ place_after out.old at (digits_of value) }
{
    let size = digits(value);
    if has_room(out.len(), at, size) {
        write_number(out, at, size, value)
    } else {
        at
    }
}
