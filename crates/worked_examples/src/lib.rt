// The worked examples as one theorem, which promises stronger than the law are false, and that there are runs over each scheme.
#![tactic(auto)]

pub mod examples;
pub mod existence;
mod proved;
