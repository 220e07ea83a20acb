// Cases as lines of text, for the programs that check by running. A line has groups with a space between each two; a group is a word and
// then its numbers, with a comma in front of each. A line whose first word a program doesn't know, such as `#`, is a note on the cases
// after it.

#![tactic(auto)]

ghost use Rattle.std.specs.Prelude.{◌≡◌, ◌≤◌, length};

use std::array;

// The most numbers of a group; those after them are passed over.
const MOST: usize = 24;

// A group: its numbers, counted from 1 (0 where it has fewer than 24), and how many commas it has.
#[derive(Clone, Copy)]
pub struct Group {
    pub numbers: [u64; 25],
    pub commas: usize,
}

// The word that a line begins with, up to a comma, a space or the line's end.
pub fn word(line: &[u8]) -> &[u8] {
    match line.iter().position(|byte| *byte <= b',') {
        Some(end) => &line[..end],
        None => line,
    }
}

// A number with one more digit behind it, or as it was if the byte is none.
fn with_digit(value: u64, byte: u8) -> u64 {
    if byte.is_ascii_digit() {
        (value % 1844674407370955162 * 10).wrapping_add(u64::from(byte - b'0'))
    } else {
        value
    }
}

// All numbers of a line as one group.
pub fn whole(line: &[u8]) -> Group {
    let mut numbers = [0; 25];
    for (number, field) in numbers.iter_mut().zip(line.split(|byte| *byte == b',')) {
        *number = field.iter().fold(0, |value, byte| with_digit(value, *byte));
    }
    Group {
        numbers,
        commas: line.iter().filter(|byte| **byte == b',').count(),
    }
}

// The group that a line begins with, and the line from the next group on.
pub fn split_group(line: &[u8]) -> (Group, &[u8]) {
    match line.iter().position(|byte| *byte == b' ') {
        Some(end) => (whole(&line[..end]), &line[end + 1..]),
        None => (whole(line), &line[line.len()..]),
    }
}

impl Group {
    // Number k, and 0 where there are fewer.
    pub fn number(&self, k: usize) -> u64 {
        self.numbers.get(k).copied().unwrap_or(0)
    }

    pub fn number8(&self, k: usize) -> u8 {
        (self.number(k) % 256) as u8
    }

    pub fn number16(&self, k: usize) -> u16 {
        (self.number(k) % 65536) as u16
    }

    // How many numbers there are, 24 at most.
    pub fn count(&self) -> usize
        ensures { result ≤ 24 }
    {
        self.commas.min(MOST)
    }

    // Numbers from one on, each so many after the one before, as words and as counts.
    pub fn words(&self, first: usize, step: usize) -> [u16; 24]
        ensures { length result ≡ 24 }
    {
        array::from_fn(|i| self.number16(i.saturating_mul(step).saturating_add(first)))
    }

    pub fn counts(&self, first: usize, step: usize) -> [u8; 24]
        ensures { length result ≡ 24 }
    {
        array::from_fn(|i| self.number8(i.saturating_mul(step).saturating_add(first)))
    }
}
