// What the search looks up: the edges of the model and the steps of the watcher, by action.
use triples::TripleSet;

// `into` has an arrow for each edge from its end to its start, `out` from its start to its end,
// and `back` one for each step of the watcher from its end to its start.
#[derive(Drop)]
pub struct Charts {
    pub into: TripleSet,
    pub out: TripleSet,
    pub back: TripleSet,
}

mod making;

pub use making::step_of;
