// A run of the channel's calls by their contracts alone (specs/), and demand 3 of it (proofs/). No functions.

#![tactic(auto)]
