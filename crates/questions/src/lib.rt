// What a line asks of a material law.
#![tactic(auto)]

pub mod law;
pub mod question;
