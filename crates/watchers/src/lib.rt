// Two watchers, and whether a watcher's set has a word.
#![tactic(auto)]

mod accepting;
mod step_watcher;
mod table_watcher;

pub use accepting::accepts;
pub use step_watcher::StepWatcher;
pub use table_watcher::TableWatcher;
