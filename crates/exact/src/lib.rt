// Whole-number division, rounded down and up, exact on both sides of zero.
#![tactic(auto)]

pub mod bounds;
pub mod division;
pub mod positive;
