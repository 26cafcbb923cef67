// Making an index over lent cells.
#![tactic(auto)]

pub mod making;
