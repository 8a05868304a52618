// A watcher beside a model.
ghost use Rattle.std.specs.Prelude.{◌≡◌, ◌≤◌};

use language::Watcher;
use model::Model;

// A watcher with the actions of the model, and with at most 32 states, so that all its laws are owed.
#[derive(Drop)]
pub struct Watched<'a, W: Watcher> {
    pub watcher: &'a W,
    pub model: &'a Model,
    ghost small: { (W.Watcher.table watcher.now).states ≤ 32 },
    ghost alphabet: { W.Alphabet.known watcher.now ≡ model.now.actions },
}

mod checking;
