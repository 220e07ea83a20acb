// The edges that paper 01 marks P, as the paper's instances and in their general form; each counter's change in a slot; a list of calls
// worked out answer by answer. No functions.

#![tactic(auto)]
