// Material laws: the exact stress of concrete and steel at a strain ratio, answered by its floor and its ceiling.
#![tactic(auto)]

pub mod asking;
pub mod block;
pub mod concrete;
pub mod fault;
pub mod material;
pub mod mill;
pub mod profile;
pub mod ratio;
mod rounding;
mod shapes;
pub mod steps;
pub mod strength;
pub mod trapezoid;
pub mod yielding;
