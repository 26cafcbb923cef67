// The five calls of the singly linked index, by seat number and by slip.
#![tactic(auto)]

pub mod call;
pub mod calls;
pub mod slip;
