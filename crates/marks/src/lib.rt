// What a scheme of marks is, and what it means.
#![tactic(auto)]

pub mod scheme;
