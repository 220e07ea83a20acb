// A hold that goes through, followed at once by its commit, does what an offer there would, of a station and of a channel. No functions.

#![tactic(auto)]
