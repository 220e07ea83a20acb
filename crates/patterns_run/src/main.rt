// The 924 patterns rebuilt another way than the library's table was made, and compared with the library in both directions.
//
// The walk goes through the numbers below 4096 and looks at the digits of each. Each line has how many were tried and how many were as
// they must be.

#![tactic(auto)]

use std::io;

// How many ones a number has: its digits are looked at one by one.
fn ones(number: u16) -> usize {
    (0..16)
        .filter(|bit| number.wrapping_shr(*bit) % 2 == 1)
        .count()
}

// ---- the patterns

// How many words were tried; how many of them stand in the table at the same place, are given by the library for their place, and are
// given their place by it; the first and the last word, and the sum of all.
#[derive(Clone, Copy, Default)]
struct Tally {
    tried: u16,
    in_table: u64,
    by_index: u64,
    by_word: u64,
    first: u16,
    last: u16,
    sum: u64,
}

// The tally with one more word. No sum here comes near the limit of its type.
fn tallied(before: Tally, word: u16, table: &[u16; 924]) -> Tally {
    let index = before.tried;
    let in_table = table.get(usize::from(index)) == Some(&word);
    let by_index = wording::word_of(index) == word;
    let by_word = indexing::index_of(word) == index;
    Tally {
        tried: index.saturating_add(1),
        in_table: before.in_table.saturating_add(u64::from(in_table)),
        by_index: before.by_index.saturating_add(u64::from(by_index)),
        by_word: before.by_word.saturating_add(u64::from(by_word)),
        first: if index == 0 { word } else { before.first },
        last: word,
        sum: before.sum.saturating_add(u64::from(word)),
    }
}

// The numbers below 4096 with six ones, in rising order.
fn patterns(rt: &impl Print) -> io::Result<()> {
    let table = pattern::words();
    let Tally {
        tried,
        in_table,
        by_index,
        by_word,
        first,
        last,
        sum,
    } = (0..4096).filter(|number| ones(*number) == 6).fold(
        Tally::default(),
        |tally, word| tallied(tally, word, &table),
    );
    println!(rt; "rebuilt {tried} words, {in_table} equal to the table")?;
    println!(rt; "{tried} indexes, {by_index} with word_of equal")?;
    println!(rt; "{tried} words, {by_word} with index_of equal")?;
    println!(rt; "first word {first}, last word {last}")?;
    println!(rt; "sum of the words {sum}")
}

// ---- the words and indexes that are no pattern's

// Whether a number is no pattern: it has a one above bit 11, or not six ones.
fn is_other(number: u16) -> bool {
    4095 < number || ones(number) != 6
}

// How many numbers from the first to the last are no patterns, and how many of those the library gives no index.
fn others(first: u16, last: u16) -> (u64, u64) {
    let mut tried: u64 = 0;
    let mut right: u64 = 0;
    for number in first..=last {
        if is_other(number) {
            tried = tried.saturating_add(1);
            right = right.saturating_add(u64::from(indexing::index_of(number) == 924));
        }
    }
    (tried, right)
}

fn no_patterns(rt: &impl Print) -> io::Result<()> {
    let (low, low_right) = others(0, 4095);
    let (high, high_right) = others(4096, 65535);
    let without_word = (924..=65535)
        .filter(|index| wording::word_of(*index) == 0)
        .count();
    println!(rt; "{low} other words below 4096, {low_right} with index_of 924")?;
    println!(rt; "{high} words from 4096 to 65535, {high_right} with index_of 924")?;
    println!(rt; "64612 indexes from 924 to 65535, {without_word} with word_of 0")
}

fn main(rt: HostRuntime) -> io::Result<()> {
    patterns(&rt)?;
    no_patterns(&rt)
}
