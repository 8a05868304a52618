// The search behind a release, over positions: pairs of a state and a watcher state. One text for every watcher.
#![tactic(auto)]

mod search;

pub use charts::Watched;
pub use positions::{Position, Positions};
pub use search::{doomed, keeping};
