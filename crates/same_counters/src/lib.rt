// Whether two stations' counters are the same (paper 01, "The channel"; paper 02, T-02): m, n, next group, counters, Open marks, calendar
// and position.

#![tactic(auto)]

ghost use Rattle.std.specs.Prelude.{◌≡◌};
ghost use Rattle.channel_rules.specs.Soundness.{same_counters};

use rules::Counters;

// Whether two records of counters are the same.
pub fn same_counters(a: &Counters, b: &Counters) -> bool
    ensures { result ≡ same_counters a.now b.now }
{
    a == b
}
