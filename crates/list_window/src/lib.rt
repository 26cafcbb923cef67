// The inner part of a call of the singly linked index: rows, what a call makes of a row, and one window.
#![tactic(auto)]

pub mod index;
mod perform;
pub mod row;
mod seats;
pub mod sizes;
pub mod turn;
pub mod window;
