// The line of a form, written into a buffer: bytes with marks in them, where numbers stand. What does not fit is not written at all.
// Nothing here knows the protocol.

#![tactic(auto)]

ghost use Rattle.std.specs.Prelude.{◌≡◌, ◌+◌, ◌≤◌, leb, length};
ghost use Rattle.std.proofs.lemmas.List.Edits.{sets};
ghost use Rattle.decimals.specs.Putting.{put_at, place_after};
ghost use Rattle.forms.specs.Form.{form_of, left_of};

use decimals::{COMMA, digits, write_bytes, write_number};

// The byte of a form that stands for the next number: `#`.
const MARK: u8 = 35;

// Whether numbers with a comma before each, and CR LF fit so many bytes.
fn left_fits(room: usize, values: &[u64]) -> bool
    ensures { result ≡ leb (length (left_of values.now)) room }
{
    let mut room_left = room;
    for value in values {
        let size = digits(*value);
        if room_left <= size {
            return false;
        }
        room_left -= size + 1;
    }
    2 <= room_left
}

// Whether the line of a form fits so many bytes. The room that is left is counted, since the length of the line might not fit a number.
fn form_fits(room: usize, form: &[u8], values: &[u64]) -> bool
    ensures { result ≡ leb (length (form_of form.now values.now)) room }
{
    let mut room_left = room;
    let mut left = values;
    for b in form {
        if *b != MARK {
            if room_left == 0 {
                return false;
            }
            room_left -= 1;
        } else if let [value, others @ ..] = left {
            let size = digits(*value);
            if room_left < size {
                return false;
            }
            room_left -= size;
            left = others;
        }
    }
    left_fits(room_left, left)
}

// Writes numbers with a comma before each, and CR LF, and gives the place after them.
fn write_left(out: &mut [u8], at: usize, values: &[u64]) -> usize
    requires { at + length (left_of values.now) ≤ length out.old }
    ensures buffer { out.new ≡ sets out.old at (left_of values.now) }
    ensures reached { result ≡ at + length (left_of values.now) }
{
    let mut to = at;
    for value in values {
        out[to] = COMMA;
        let size = digits(*value);
        to = write_number(out, to + 1, size, *value);
    }
    write_bytes(out, to, b"\r\n")
}

// Writes the line of a form, and gives the place after it.
fn write_form(out: &mut [u8], at: usize, form: &[u8], values: &[u64]) -> usize
    requires { at + length (form_of form.now values.now) ≤ length out.old }
    ensures buffer { out.new ≡ sets out.old at (form_of form.now values.now) }
    ensures reached { result ≡ at + length (form_of form.now values.now) }
{
    let mut to = at;
    let mut left = values;
    for b in form {
        if *b != MARK {
            out[to] = *b;
            to += 1;
        } else if let [value, others @ ..] = left {
            let size = digits(*value);
            to = write_number(out, to, size, *value);
            left = others;
        }
    }
    write_left(out, to, left)
}

// The line of a form, at place at if it fits there; gives the place after it, or at.
pub fn put_form(out: &mut [u8], at: usize, form: &[u8], values: &[u64]) -> usize
    ensures buffer { out.new ≡ put_at out.old at (form_of form.now values.now) }
    ensures reached { result ≡ place_after out.old at (form_of form.now values.now) }
{
    let room = out.len();
    if at <= room && form_fits(room - at, form, values) {
        write_form(out, at, form, values)
    } else {
        at
    }
}
