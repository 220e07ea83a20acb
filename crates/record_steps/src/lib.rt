// One record of a recording, the first or a row, to what it leads to.

#![tactic(auto)]

ghost use Rattle.std.specs.Prelude.{◌≡◌};
ghost use Rattle.following.specs.Following.{follow_record};
ghost use Rattle.following.specs.Steps.{row_step};

use fields::first_fields;
use follow_starts::start_with;
use following::{Follower, Step, listened, refused};
use listening::listen;
use row_fields::row_fields;

// A row. 19: it breaks the form. 6: it has not 2m fields. Then listening's numbers.
fn row(f: Follower, bytes: &[u8]) -> Step
    ensures { result ≡ row_step f bytes.now }
{
    let Some(row) = row_fields(bytes) else {
        return refused(f, 19);
    };
    let m = f.counters.minislots as usize;
    if row.fields != m * 2 {
        return refused(f, 6);
    }
    if 8 < m {
        return refused(f, 18);
    }
    let heard = listen(f.counters, &row.words[..m], &row.counts[..m]);
    listened(f, heard)
}

// One record, which is handed over without its CR LF. In the first: 19, then 5.
pub fn read_record(f: Follower, bytes: &[u8]) -> Step
    ensures { result ≡ follow_record f bytes.now }
{
    if 1 < f.place {
        return row(f, bytes);
    }
    match first_fields(bytes) {
        None => refused(f, 19),
        Some(first) => start_with(f, first.m, first.n),
    }
}
