// What a key is: any kind with a total order.
#![tactic(auto)]

pub mod key;
