// Tables as lines, and the calendars of their records.
use local_channel::LocalChannel;
use minislot::Minislot;
use rules::WireRow;
use runs_records::{owned_text, record_line};
use runs_text::text;
use std::io;

// A group, and the word and the count of each of its minislots; nothing if there is nothing on the wire.
fn row_line(rt: &impl Print, group: usize, row: &WireRow) -> io::Result<()> {
    let silent = Minislot { word: 0, count: 0 };
    if row.minislots.iter().all(|x| *x == silent) {
        return Ok(());
    }
    print!(rt; "row,{group}")?;
    for x in &row.minislots {
        print!(rt; ",{},{}", x.word, x.count)?;
    }
    text(rt, b"\n")
}

pub(crate) fn table_lines(rt: &impl Print, c: &LocalChannel) -> io::Result<()> {
    println!(rt; "table,{}", c.count)?;
    for s in c.stations.iter().take(c.count) {
        record_line(rt, s)?;
    }
    for (g, row) in c.wire.iter().enumerate() {
        row_line(rt, g + 1, row)?;
    }
    Ok(())
}

// The position and the calendar of each record.
pub(crate) fn owned_lines(rt: &impl Print, c: &LocalChannel) -> io::Result<()> {
    for s in c.stations.iter().take(c.count) {
        owned_text(rt, &s.counters)?;
        text(rt, b"\n")?;
    }
    Ok(())
}
