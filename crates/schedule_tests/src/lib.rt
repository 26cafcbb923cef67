// Tests of schedules: the reader, the lines and the replay at their edges, and that memory is given back.
#![tactic(auto)]

#[cfg(test)]
mod memory;
#[cfg(test)]
mod replays;
#[cfg(test)]
mod sixteen;
#[cfg(test)]
mod tests;
