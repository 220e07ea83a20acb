// Reading the fields of a row, word and count in turn, from a record that is handed over without its CR LF.
// Nothing here knows the protocol.

#![tactic(auto)]

ghost use Rattle.std.specs.Prelude.{◌≡◌, drop, set};
ghost use Rattle.fields.specs.Fields.{parts};
ghost use Rattle.row_fields.specs.Steps.{pair_of};
ghost use Rattle.row_fields.specs.Row.{row_of};

use fields::field_at;

// A word, the count after it, the place after the comma that ends that, and whether the record's end ends it instead;
// or a word with no count after it.
#[derive(Clone, Copy)]
enum Pair {
    Both(u16, u8, usize, bool),
    Odd(u16),
}

// A row: how many fields it has, and the first eight words and counts (0 where there are fewer).
#[derive(Clone, Copy)]
pub struct RowFields {
    pub fields: usize,
    pub words: [u16; 8],
    pub counts: [u8; 8],
}

// The most bytes of a record.
const LONGEST: usize = 128;

// The word that begins at place start, and the count after it.
fn pair_at(bytes: &[u8], start: usize) -> Option<Pair>
    ensures { result ≡ pair_of start (parts (drop start bytes.now)) }
{
    let one = field_at(bytes, start)?;
    if 65535 < one.value {
        return None;
    }
    let word = one.value as u16;
    if one.last {
        return Some(Pair::Odd(word));
    }
    let two = field_at(bytes, one.next)?;
    if 255 < two.value {
        return None;
    }
    Some(Pair::Both(word, two.value as u8, two.next, two.last))
}

// Eight words or counts with one of them set; a place past them changes nothing.
fn with_set<T: Copy>(list: [T; 8], place: usize, value: T) -> [T; 8]
    ensures { result ≡ set list place value }
{
    let mut changed = list;
    if place < 8 {
        changed[place] = value;
    }
    changed
}

// The fields of a row. None: they break the form.
// The pairs are counted by hand: a `for` over them would need a bound that no record reaches, and an answer after it that is never given.
pub fn row_fields(bytes: &[u8]) -> Option<RowFields>
    ensures { result ≡ row_of bytes.now }
{
    if LONGEST < bytes.len() {
        return None;
    }
    let mut words = [0u16; 8];
    let mut counts = [0u8; 8];
    let mut at: usize = 0;
    let mut pairs: usize = 0;
    loop {
        let pair = pair_at(bytes, at)?;
        match pair {
            Pair::Odd(word) => {
                return Some(RowFields {
                    fields: pairs * 2 + 1,
                    words: with_set(words, pairs, word),
                    counts,
                });
            }
            Pair::Both(word, count, next, last) => {
                // Named first: no proof is made of a call whose array is stored in what it was taken from.
                let more_words = with_set(words, pairs, word);
                words = more_words;
                let more_counts = with_set(counts, pairs, count);
                counts = more_counts;
                pairs += 1;
                if last {
                    return Some(RowFields {
                        fields: pairs * 2,
                        words,
                        counts,
                    });
                }
                at = next;
            }
        }
    }
}
