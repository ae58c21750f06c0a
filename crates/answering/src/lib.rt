// What is replied to questions about material laws.
#![tactic(auto)]

mod answer;
pub mod reply;
pub mod replying;
