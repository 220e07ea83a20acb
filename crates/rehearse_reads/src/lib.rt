// What a run of `rehearse` writes, however its reads divide the input: a theorem, and no code.

#![tactic(auto)]
