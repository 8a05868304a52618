// What a search goes by and does not change.
ghost use Rattle.charts.specs.Arrows.{Charted};

use charts::{Charts, Watched};
use language::Watcher;
use model::NumberSet;

// The watcher beside the model, what both look like by action, and the states that free.
#[derive(Drop)]
pub struct Setting<'a, W: Watcher> {
    pub watched: Watched<'a, W>,
    pub charts: Charts,
    pub freeing: NumberSet,
    ghost charted: { ∥ Charted watched.model.now (W.Watcher.table watched.watcher.now) charts ∥₁ },
}
