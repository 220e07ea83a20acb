// The lines that `show` of `rehearse` prints of a channel's counters, written into a buffer. A line that does not fit is not written.

#![tactic(auto)]

ghost use Rattle.std.specs.Prelude.{◌≡◌, true, ◌∷◌, ◌-◌, get_or};
ghost use Rattle.decimals.specs.Putting.{put_at, place_after};
ghost use Rattle.programs.specs.Buffering.{put_lines, place_after_lines};
ghost use Rattle.wire_lines.specs.WireLines.{groups_lines};
ghost use Rattle.counter_lines.specs.CounterLines.{counters_line, owners_line, group_line};

use counters::{place_of, resolution_of};
use forms::put_form;
use rules::Counters;

// The counters' line. Each of the following gives the place after its lines.
pub fn put_counters(out: &mut [u8], at: usize, call: u64, c: Counters) -> usize
    ensures buffer { out.new ≡ put_at out.old at (counters_line call c) }
    ensures reached { result ≡ place_after out.old at (counters_line call c) }
{
    let values = [
        call,
        c.minislots as u64,
        c.groups as u64,
        c.next as u64,
        c.urgent as u64,
        c.long as u64,
    ];
    put_form(out, at, b"#,counters", &values)
}

// The numbers of the owners' line: the call, the position, and the calendar's entries.
fn owner_values(call: u64, position: u8, entries: [u16; 24]) -> [u64; 26]
    ensures { result ≡ call ∷ position ∷ entries }
{
    let mut values = [0; 26];
    values[0] = call;
    values[1] = position as u64;
    for (i, entry) in entries.iter().enumerate() {
        values[i + 2] = *entry as u64;
    }
    values
}

// The owners' line: the position of the coming slot, and whose each position is.
pub fn put_owners(out: &mut [u8], at: usize, call: u64, c: Counters) -> usize
    ensures buffer { out.new ≡ put_at out.old at (owners_line call c) }
    ensures reached { result ≡ place_after out.old at (owners_line call c) }
{
    put_form(
        out,
        at,
        b"#,owners",
        &owner_values(call, c.position, c.calendar),
    )
}

// The Open mark of a group, yes beyond the eight.
fn opened_of(c: Counters, group: u8) -> bool
    ensures { result ≡ get_or c.opened (group - 1) true }
{
    let g = place_of(group);
    if g < 8 { c.opened[g] } else { true }
}

// A group's line.
fn put_group(out: &mut [u8], at: usize, call: u64, c: Counters, group: u8) -> usize
    ensures buffer { out.new ≡ put_at out.old at (group_line call c group) }
    ensures reached { result ≡ place_after out.old at (group_line call c group) }
{
    let values = [call, group as u64, resolution_of(c, group) as u64];
    if opened_of(c, group) {
        put_form(out, at, b"#,group,#,#,yes", &values)
    } else {
        put_form(out, at, b"#,group,#,#,no", &values)
    }
}

// A line for each group.
pub fn put_groups(out: &mut [u8], at: usize, call: u64, c: Counters) -> usize
    ensures buffer { out.new ≡ put_lines out.old at (groups_lines c.groups (group_line call c)) }
    ensures reached { result ≡ place_after_lines out.old at (groups_lines c.groups (group_line call c)) }
{
    let mut to = at;
    for i in 0..c.groups {
        to = put_group(out, to, call, c, i + 1);
    }
    to
}
