// Positions, sets of them, and the turn of a search over them. A position is a pair of a state and a watcher state.
// Only the searches call these functions, and keep what they require.
#![tactic(auto)]

mod position;
mod positions;
mod progress;
mod search;
mod setting;

pub use position::Position;
pub use positions::Positions;
pub use progress::Progress;
pub use search::Search;
pub use setting::Setting;
