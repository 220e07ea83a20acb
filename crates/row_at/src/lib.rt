// A row of minislots that stands at a place of a longer recording.

#![tactic(auto)]

ghost use Rattle.std.specs.Prelude.{◌≡◌};
ghost use Rattle.rows.specs.Row.{row_at_of};

use minislot::RowReading;
use row_reading::read_row;
use rows::refused;

// Reads the row that begins at a place of a longer recording. 6: the recording has not m minislots from there.
pub fn read_row_at(words: &[u16], counts: &[u8], start: usize, m: u8) -> RowReading
    ensures { result ≡ row_at_of m start words.now counts.now }
{
    let n = m as usize;
    if words.len() < start {
        return refused(6);
    }
    if counts.len() < start {
        return refused(6);
    }
    if words.len() - start < n {
        return refused(6);
    }
    if counts.len() - start < n {
        return refused(6);
    }
    let end = start + n;
    read_row(&words[start..end], &counts[start..end], m)
}
