// The lines that `show` of `rehearse` prints of a channel's wire, written into a buffer. A line that does not fit is not written at all.

#![tactic(auto)]

ghost use Rattle.std.specs.Prelude.{◌≡◌, ◌∷◌, ◌+◌, ◌*◌, ◌≤◌, length, take};
ghost use Rattle.decimals.specs.Putting.{put_at, place_after};
ghost use Rattle.programs.specs.Buffering.{put_lines, place_after_lines};
ghost use Rattle.wire_lines.specs.WireLines.{cells, wire_line, groups_lines};

use forms::put_form;
use minislot::Minislot;
use queueing::held;
use rules::WireRow;
use wire_hearing::row_at;

// Two numbers, and then word and count of each minislot of a row.
fn row_values(call: u64, group: u8, minislots: &[Minislot]) -> [u64; 18]
    requires { length minislots.now ≤ 8 }
    ensures size { length result ≡ 18 }
    ensures values { take (2 + length minislots.now * 2) result ≡ call ∷ group ∷ cells minislots.now }
{
    let mut values = [0; 18];
    values[0] = call;
    values[1] = group as u64;
    for (j, x) in minislots.iter().enumerate() {
        values[2 + j * 2] = x.word as u64;
        values[3 + j * 2] = x.count as u64;
    }
    values
}

// A group's row of the wire; gives the place after the line.
fn put_row(out: &mut [u8], at: usize, call: u64, m: u8, wire: [WireRow; 8], group: u8) -> usize
    ensures buffer { out.new ≡ put_at out.old at (wire_line call m wire group) }
    ensures reached { result ≡ place_after out.old at (wire_line call m wire group) }
{
    let row = row_at(wire, group);
    let end = held(m);
    let values = row_values(call, group, &row.minislots[..end]);
    put_form(out, at, b"#,wire", &values[..2 + end * 2])
}

// A line for each group's row of the wire.
pub fn put_wire(out: &mut [u8], at: usize, call: u64, m: u8, n: u8, wire: [WireRow; 8]) -> usize
    ensures buffer { out.new ≡ put_lines out.old at (groups_lines n (wire_line call m wire)) }
    ensures reached { result ≡ place_after_lines out.old at (groups_lines n (wire_line call m wire)) }
{
    let mut to = at;
    for i in 0..n {
        to = put_row(out, to, call, m, wire, i + 1);
    }
    to
}
