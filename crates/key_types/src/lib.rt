// The keys of the product: sectors and wear keys.
#![tactic(auto)]

pub mod sector;
#[cfg(test)]
mod tests;
pub mod wear;
