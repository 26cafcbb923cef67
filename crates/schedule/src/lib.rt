// Schedules: their bytes from an input, the reader over lent bytes, what a whole schedule holds, and the lines that answer it.
#![tactic(auto)]

pub mod contents;
pub mod input;
pub mod laws;
pub mod line;
pub mod lines;
pub mod reader;
