// Code that is proved once for every scheme and used at each, and the worked examples of schemes and keys.
#![tactic(auto)]

pub mod examples;
pub mod generic;
#[cfg(test)]
mod tests;
pub mod uses;
pub mod whole;
