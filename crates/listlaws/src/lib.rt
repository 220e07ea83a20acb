// Laws on lists that several layers cite: proofs/. No functions.

#![tactic(auto)]
