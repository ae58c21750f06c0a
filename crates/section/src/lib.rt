// The reinforced concrete section: the bars that it may hold.
#![tactic(auto)]

pub mod bars;
