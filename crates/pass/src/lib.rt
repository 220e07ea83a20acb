// One pass over the lent table: each station takes its slot's step in place, and what they send is gathered.

#![tactic(auto)]

ghost use Rattle.std.specs.Prelude.{◌≡◌};
ghost use Rattle.pass.specs.Rounds.{rounds_of};
ghost use Rattle.slots.specs.Stepped.{stepped_of, gathered_of};

use drawing::least;
use rules::{Outcome, Sent, Station};
use sending::{gather, silence};
use stepping::step;

// How many stations step: no more than there are stations, picks and steps.
fn rounds(n: usize, m: usize, steps: usize) -> usize
    ensures { result ≡ rounds_of n m steps }
{
    least(least(n, m), steps)
}

// So many stations step by the slot's outcome, each with its pick, by `stepping::step`.
pub fn step_all(table: &mut [Station], picks: &[u8], o: Outcome, steps: usize) -> Sent
    ensures { (table.new ≡ stepped_of o steps table.old picks.now)
        × (result ≡ gathered_of o steps table.old picks.now) }
{
    let n = rounds(table.len(), picks.len(), steps);
    let mut sent = silence();
    let mut i = 0;
    while i < n {
        let r = step(table[i], o, picks[i]);
        table[i] = r.station;
        sent = gather(r, sent);
        i += 1;
    }
    sent
}
