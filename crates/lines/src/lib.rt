// The lines that `follow` prints for its rows, written into a buffer. What does not fit is not written at all. Nothing here knows the
// protocol.

#![tactic(auto)]

ghost use Rattle.std.specs.Prelude.{◌≡◌, ◌+◌, ◌≤◌, length};
ghost use Rattle.std.proofs.lemmas.List.Edits.{sets};
ghost use Rattle.decimals.specs.Decimal.{HasDigits};
ghost use Rattle.decimals.specs.Putting.{put_at, place_after};
ghost use Rattle.lines.specs.Lines.{line_of};
ghost use Rattle.lines.specs.Pieces.{slot_bytes, counter_bytes};

use decimals::{COMMA, CR, LF, digits, has_room, write_bytes, write_field};

// The first half of a row's line: slot, group and turn, each with a comma after it.
fn write_slot(
    out: &mut [u8],
    at: usize,
    a: usize,
    slot: u64,
    b: usize,
    group: u64,
    turn: u8,
) -> usize
    requires { HasDigits slot a × HasDigits group b × (at + a + b + 4 ≤ length out.old) }
    ensures buffer { out.new ≡ sets out.old at (slot_bytes slot group turn) }
    ensures reached { result ≡ at + a + b + 4 }
{
    let first = write_field(out, at, a, slot, COMMA);
    let second = write_field(out, first, b, group, COMMA);
    write_bytes(out, second, &[turn, COMMA])
}

// The second half of a row's line: the three counters, and CR LF.
fn write_counters(
    out: &mut [u8],
    at: usize,
    a: usize,
    urgent: u64,
    b: usize,
    long: u64,
    c: usize,
    resolution: u64,
) -> usize
    requires { HasDigits urgent a × HasDigits long b × HasDigits resolution c × (at + a + b + c + 4 ≤ length out.old) }
    ensures buffer { out.new ≡ sets out.old at (counter_bytes urgent long resolution) }
    ensures reached { result ≡ at + a + b + c + 4 }
{
    let first = write_field(out, at, a, urgent, COMMA);
    let second = write_field(out, first, b, long, COMMA);
    let third = write_field(out, second, c, resolution, CR);
    out[third] = LF;
    third + 1
}

// The line of a row, at place at if it fits there; gives the place after it, or at. turn is the letter: any byte, a form's mark too,
// so the line is no form.
pub fn put_line(
    out: &mut [u8],
    at: usize,
    slot: u64,
    group: u8,
    turn: u8,
    urgent: u16,
    long: u16,
    resolution: u16,
) -> usize
    ensures buffer { out.new ≡ put_at out.old at (line_of slot group turn urgent long resolution) }
    ensures reached { result ≡ place_after out.old at (line_of slot group turn urgent long resolution) }
{
    let a = digits(slot);
    let group = group as u64;
    let urgent = urgent as u64;
    let long = long as u64;
    let resolution = resolution as u64;
    let b = digits(group);
    let c = digits(urgent);
    let d = digits(long);
    let e = digits(resolution);
    if has_room(out.len(), at, a + b + c + d + e + 8) {
        let half = write_slot(out, at, a, slot, b, group, turn);
        write_counters(out, half, c, urgent, d, long, e, resolution)
    } else {
        at
    }
}
