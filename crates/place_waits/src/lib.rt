// How long a place of a transmission queue waits, of every sound table and every list of calls from it. No functions.

#![tactic(auto)]
