// The clauses of a sound table (paper 01, "The channel") on the urgent and the long queue, as code, over the messages of the table: each
// place of the urgent queue has exactly one message, and the long stretches cover the long queue without overlap.

#![tactic(auto)]

pub mod long;
pub mod urgent;
