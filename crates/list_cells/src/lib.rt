// The cells of the singly linked index: what the caller lends, the walk along their links, and the writes of a window.
#![tactic(auto)]

pub mod cell;
pub mod link;
pub mod memory;
pub mod walk;
