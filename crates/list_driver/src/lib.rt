// The driver: an index made and a list of calls run on it, with the law of their answers.
#![tactic(auto)]

pub mod driver;
