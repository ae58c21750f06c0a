// The lines of a text, the pieces of a line, and the figures of a number.
#![tactic(auto)]

pub mod figures;
pub mod lines;
pub mod runs;
