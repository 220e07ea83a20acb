// A minislot: what is heard of it as a word and a count, and what that reads as.

#![tactic(auto)]

ghost use Rattle.std.specs.Prelude.{◌≡◌};
ghost use Rattle.minislot.specs.Reading.{reading_of, single_of, empty_of, reading_answer, reading_answer_of};

// What a minislot carries: the OR of its senders' words and of their counts.
#[derive(Clone, Copy, PartialEq, Eq)]
pub struct Minislot {
    pub word: u16,
    pub count: u8,
}

// What a minislot reads as: no sender; one sender, with its pattern's index and its count; or a collision. A Collide is two senders or
// more, or a click on the line, which may stand over one sender or none.
#[derive(Clone, Copy)]
pub enum Feedback {
    Empty,
    Single(u16, u8),
    Collide,
}

// The answer to reading a minislot: its feedback, or the number of the refusal: 1, 3 or 4.
#[derive(Clone, Copy)]
pub enum Reading {
    Heard(Feedback),
    Refused(u8),
}

// One minislot's feedback, as an element of a row.
#[derive(Clone, Copy)]
pub struct MinislotFeedback {
    pub feedback: Feedback,
}

// The answer to reading a row: number 0 with its weight and the feedback of its minislots, the rest of the array being Empty; or the
// number of the refusal, 6, 1, 3 or 4, with weight 0 and nothing heard.
#[derive(Clone, Copy)]
pub struct RowReading {
    pub number: u8,
    pub weight: u8,
    pub minislots: [MinislotFeedback; 8],
}

// Reads a minislot. 1: a one above bit 11. 3: Single with count 0. 4: Empty with count above 0. One to five ones are a click.
pub fn read(word: u16, count: u8) -> Reading
    ensures { (result ≡ reading_of word count) × (reading_answer result ≡ reading_answer_of word count) }
{
    if 4095 < word {
        return Reading::Refused(1);
    }
    let ones = u16::count_ones(word);
    if ones == 0 {
        return empty(count);
    }
    if ones < 6 {
        return Reading::Heard(Feedback::Collide);
    }
    if ones == 6 {
        return single(word, count);
    }
    Reading::Heard(Feedback::Collide)
}

// No ones.
fn empty(count: u8) -> Reading
    ensures { result ≡ empty_of count }
{
    if count == 0 {
        Reading::Heard(Feedback::Empty)
    } else {
        Reading::Refused(4)
    }
}

// Six ones.
fn single(word: u16, count: u8) -> Reading
    ensures { result ≡ single_of word count }
{
    if count == 0 {
        return Reading::Refused(3);
    }
    let index = indexing::index_of(word);
    Reading::Heard(Feedback::Single(index, count))
}
