// The singly linked index.
#![tactic(auto)]

pub mod law;
mod proved;
