// What a run of `follow` writes, however its reads divide the recording, and that no slot that it follows is owned: three theorems about
// `follow_program` and its steps, and no code.

#![tactic(auto)]
