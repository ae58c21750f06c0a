// The stream of entry words that lines of text ask for.
#![tactic(auto)]

pub mod compose;
pub mod expected;
mod line;
pub mod message;
mod spelling;
