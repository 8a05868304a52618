// The until search, for every until language: the facts of a guarded model with their least heights, and the states
// from which a good path starts.
#![tactic(auto)]

mod filling;
mod marking;
mod noting;
mod parts;
mod rounds;
mod rule_steps;

pub use filling::fill;
pub use marking::{reaching, satisfying};
