// What a run of a program writes, however its reads divide the input: definitions and a theorem of any program, and no code.

#![tactic(auto)]
