// The schemes of marks: full, owner, version and pairs of schemes, and the spread of the places over slots.
#![tactic(auto)]

pub mod full;
pub mod owner;
pub mod pair;
pub mod spread;
pub mod version;
