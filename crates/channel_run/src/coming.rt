// Who sends in the coming slots of a table: a list with other numbers in it is lent, and written as the call leaves it.
use coming_rules::ComingAnswer;
use local_channel::LocalChannel;
use runs_records::refused_line;
use runs_tables::foreseen;
use runs_text::{fields, text};
use std::{array, io};

// Room for a list: 1000, 1001, ..
fn room() -> [u16; 1030] {
    array::from_fn(|k| 1000 + (k % 1030) as u16)
}

fn answer_line(rt: &impl Print, answer: ComingAnswer) -> io::Result<()> {
    match answer {
        ComingAnswer::Until(slots) => println!(rt; "until,{slots}"),
        ComingAnswer::Refused(number) => refused_line(rt, number),
    }
}

// The call on this list: its answer, then the list.
fn call(rt: &impl Print, c: LocalChannel, list: &mut [u16]) -> io::Result<()> {
    answer_line(rt, foreseen(c, list))?;
    text(rt, b"list")?;
    fields(rt, list)?;
    text(rt, b"\n")
}

// The call with a list of so many entries, up to 1,030.
pub(crate) fn coming(rt: &impl Print, c: LocalChannel, w: usize) -> io::Result<()> {
    let mut space = room();
    call(rt, c, &mut space[..w.min(1030)])
}
