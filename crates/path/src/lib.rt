// The path behind a yes: a shortest path from a state into the goal, guarded before its end, whose word a language has.
#![tactic(auto)]

mod aim;
mod reaching;
mod search;
mod shrinking;
mod span;
mod split;
mod unfolding;

pub use aim::Aim;
pub use search::shortest;
