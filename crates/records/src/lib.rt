// What a record of a schedule says.
#![tactic(auto)]

pub mod record;
