// The rules of a channel as definitions over the types of crate `rules`: a sound table, start, writing, calendar and slot; demand 3 of
// every list of calls, and its proof. No functions.

#![tactic(auto)]
