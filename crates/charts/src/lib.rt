// What a search over a model and a watcher looks up: its edges and its steps by action, as sets.
// Only the searches and the sheet call these functions, and keep what they require.
#![tactic(auto)]

mod charts;
mod watched;

pub use charts::{Charts, step_of};
pub use watched::Watched;
