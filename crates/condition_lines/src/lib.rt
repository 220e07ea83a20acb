// The line that `show` of `rehearse` prints of a message record, by its station's index and the condition of its message, written into a
// buffer. A line that does not fit is not written at all.

#![tactic(auto)]

ghost use Rattle.std.specs.Prelude.{◌≡◌};
ghost use Rattle.rules.specs.declared.Condition.TheVariants.{Free, Fresh, Asked, Resolving, Urgent, Long, Held};
ghost use Rattle.decimals.specs.Putting.{put_at, place_after};
ghost use Rattle.condition_lines.specs.ConditionLines.{condition_line};

use forms::put_form;

// The line of a record with no message. Each of these gives the place after the line.
pub fn put_free(out: &mut [u8], at: usize, call: u64, index: u16) -> usize
    ensures buffer { out.new ≡ put_at out.old at (condition_line call index Free) }
    ensures reached { result ≡ place_after out.old at (condition_line call index Free) }
{
    let values = [call, index as u64];
    put_form(out, at, b"#,message,#,free", &values)
}

// The line of one whose message has not asked.
pub fn put_fresh(out: &mut [u8], at: usize, call: u64, index: u16, total: u8) -> usize
    ensures buffer { out.new ≡ put_at out.old at (condition_line call index (Fresh total)) }
    ensures reached { result ≡ place_after out.old at (condition_line call index (Fresh total)) }
{
    let values = [call, index as u64, total as u64];
    put_form(out, at, b"#,message,#,fresh", &values)
}

// The line of one whose message asked in a minislot.
pub fn put_asked(
    out: &mut [u8],
    at: usize,
    call: u64,
    index: u16,
    group: u8,
    minislot: u8,
    total: u8,
) -> usize
    ensures buffer { out.new ≡ put_at out.old at (condition_line call index (Asked group minislot total)) }
    ensures reached { result ≡ place_after out.old at (condition_line call index (Asked group minislot total)) }
{
    let values = [
        call,
        index as u64,
        group as u64,
        minislot as u64,
        total as u64,
    ];
    put_form(out, at, b"#,message,#,asked", &values)
}

// The line of one whose message is in its group's resolution queue.
pub fn put_resolving(
    out: &mut [u8],
    at: usize,
    call: u64,
    index: u16,
    group: u8,
    place: u16,
    total: u8,
) -> usize
    ensures buffer { out.new ≡ put_at out.old at (condition_line call index (Resolving group place total)) }
    ensures reached { result ≡ place_after out.old at (condition_line call index (Resolving group place total)) }
{
    let values = [call, index as u64, group as u64, place as u64, total as u64];
    put_form(out, at, b"#,message,#,resolving", &values)
}

// The line of one whose message is in the urgent queue.
pub fn put_urgent(out: &mut [u8], at: usize, call: u64, index: u16, place: u16) -> usize
    ensures buffer { out.new ≡ put_at out.old at (condition_line call index (Urgent place)) }
    ensures reached { result ≡ place_after out.old at (condition_line call index (Urgent place)) }
{
    let values = [call, index as u64, place as u64];
    put_form(out, at, b"#,message,#,urgent", &values)
}

// The line of one whose message is in the long queue.
pub fn put_long(
    out: &mut [u8],
    at: usize,
    call: u64,
    index: u16,
    first: u16,
    left: u8,
    total: u8,
) -> usize
    ensures buffer { out.new ≡ put_at out.old at (condition_line call index (Long first left total)) }
    ensures reached { result ≡ place_after out.old at (condition_line call index (Long first left total)) }
{
    let values = [call, index as u64, first as u64, left as u64, total as u64];
    put_form(out, at, b"#,message,#,long", &values)
}

// The line of one whose message is held.
pub fn put_held(out: &mut [u8], at: usize, call: u64, index: u16, total: u8) -> usize
    ensures buffer { out.new ≡ put_at out.old at (condition_line call index (Held total)) }
    ensures reached { result ≡ place_after out.old at (condition_line call index (Held total)) }
{
    let values = [call, index as u64, total as u64];
    put_form(out, at, b"#,message,#,held", &values)
}
