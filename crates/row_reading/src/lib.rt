// Reading a row of minislots: its number, or its weight and what each minislot reads as.

#![tactic(auto)]

ghost use Rattle.std.specs.Prelude.{◌≡◌, ◌≤◌, length};
ghost use Rattle.rows.specs.Row.{minislots_of, row_of};

use minislot::{Feedback, MinislotFeedback, Reading, RowReading, read};
use rows::{refused, weigh};

// Reads a row of m minislots. 6: the row has not m minislots. Then 1, 3 or 4 for the first bad minislot.
pub fn read_row(words: &[u16], counts: &[u8], m: u8) -> RowReading
    ensures { result ≡ row_of m words.now counts.now }
{
    let n = m as usize;
    if n < 2 {
        return refused(6);
    }
    if 8 < n {
        return refused(6);
    }
    if words.len() != n {
        return refused(6);
    }
    if counts.len() != n {
        return refused(6);
    }
    read_minislots(words, counts, n)
}

// Reads the minislots of a row in order, up to the first that is refused.
fn read_minislots(words: &[u16], counts: &[u8], n: usize) -> RowReading
    requires { (n ≤ 8) × (length words.now ≡ n) × (length counts.now ≡ n) }
    ensures { result ≡ minislots_of words.now counts.now }
{
    let mut minislots = [MinislotFeedback {
        feedback: Feedback::Empty,
    }; 8];
    for j in 0..n {
        match read(words[j], counts[j]) {
            Reading::Heard(feedback) => minislots[j] = MinislotFeedback { feedback },
            Reading::Refused(number) => return refused(number),
        }
    }
    RowReading {
        number: 0,
        weight: weigh(minislots),
        minislots,
    }
}
