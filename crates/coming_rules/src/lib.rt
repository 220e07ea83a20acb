// Who sends in the coming slots (paper 02, T-07): the type of the answer. What is answered is defined in specs/.

#![tactic(auto)]

// The answer to asking who sends in the coming slots: the slots until both transmission queues are empty, or the number of the refusal.
#[derive(Clone, Copy)]
pub enum ComingAnswer {
    Until(u32),
    Refused(u8),
}
