// Splitting a stream of bytes into records, each ended by CR LF. Nothing here knows what a record holds.

#![tactic(auto)]

ghost use Rattle.std.specs.Prelude.{◌≡◌, ◌+◌, ◌<◌, length, drop};
ghost use Rattle.records.specs.Cutting.{cut_of, cut_answer, cut_number_of, after_return};

// Where the record ends that begins at a given place.
#[derive(Clone, Copy)]
pub enum Cut {
    // The record stands before end, and the next begins at next.
    Record { end: usize, next: usize },
    // The record is not whole yet, and the input has not ended: more bytes are to be read.
    More,
    // The input has ended, and no record is left.
    Done,
    // Number 19: a CR or LF by itself, or more bytes than a record may have with no CR LF.
    Broken,
}

const CR: u8 = 13;

const LF: u8 = 10;

// The record that ends before the CR at place at, if LF follows the CR.
fn after_return(bytes: &[u8], at: usize, ended: bool) -> Cut
    requires { at < length bytes.now }
    ensures { result ≡ after_return ended at (drop (at + 1) bytes.now) }
{
    let next = at + 1;
    if next < bytes.len() {
        let b = bytes[next];
        if b == LF {
            return Cut::Record {
                end: at,
                next: at + 2,
            };
        }
        return Cut::Broken;
    }
    if ended {
        return Cut::Broken;
    }
    Cut::More
}

// Where the record ends that begins at place start; longest: the most bytes of a record before its CR LF; ended: no byte comes after these.
// It looks at two bytes more than a record may have, at most.
pub fn cut_record(bytes: &[u8], start: usize, longest: usize, ended: bool) -> Cut
    ensures cut { result ≡ cut_of longest bytes.now start ended }
    ensures number { (cut_answer result).0 ≡ cut_number_of longest bytes.now start ended }
{
    if bytes.len() <= start {
        if ended {
            return Cut::Done;
        }
        return Cut::More;
    }
    let mut room = longest;
    for at in start..bytes.len() {
        let b = bytes[at];
        if b == CR {
            return after_return(bytes, at, ended);
        }
        if room == 0 {
            return Cut::Broken;
        }
        if b == LF {
            return Cut::Broken;
        }
        room -= 1;
    }
    if ended {
        let end = bytes.len();
        return Cut::Record { end, next: end };
    }
    Cut::More
}
