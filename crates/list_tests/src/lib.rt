// Tests of the singly linked index: the code of `list` run at its edges.
#![tactic(auto)]

#[cfg(test)]
mod driven;
#[cfg(test)]
mod elsewhere;
#[cfg(test)]
mod lent;
#[cfg(test)]
mod making;
pub mod other_cells;
#[cfg(test)]
mod other_slices;
#[cfg(test)]
mod refusals;
#[cfg(test)]
mod sixteen;
#[cfg(test)]
mod sizes;
#[cfg(test)]
mod worked;
