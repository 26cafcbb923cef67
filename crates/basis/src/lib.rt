// What every other crate speaks of: seats, places and bank bits, the kinds of operation, the refusals and the answers,
// and the interrupt mask.
#![tactic(auto)]

pub mod answer;
pub mod bounded;
pub mod kind;
pub mod mask;
pub mod refusal;
#[cfg(test)]
mod tests;
