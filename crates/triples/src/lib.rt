// Sets of triples of numbers below fixed bounds, and of the numbers that pass a test.
#![tactic(auto)]

mod numbers;
mod triple_set;

pub use numbers::passing;
pub use triple_set::TripleSet;
