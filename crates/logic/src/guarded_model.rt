// A model with the states at which a guard holds.
ghost use Rattle.std.specs.Prelude.{◌≡◌, ◌≤◌, Decides};
ghost use Rattle.model.specs.Models.{edges_of};
ghost use Rattle.model.specs.Sets.{Has};
ghost use Rattle.logic.specs.Facts.{ground as ground_of};

use model::{Edge, Model, NumberSet};
use std::marker;

// Paths go through it while the guard holds. It is seen as the model and the guard.
#[derive(Drop)]
pub struct GuardedModel<'a> {
    model: &'a Model,
    guard: NumberSet,
}

impl<'a> marker::Model for GuardedModel<'a> {
    ghost use Rattle.logic.specs.Facts.{Ground};

    ghost Value = { Ground };

    ghost view = { λ s. record { model = s.model.now; guard = s.guard } };
}

impl<'a> GuardedModel<'a> {
    // The model with this guard.
    pub fn of(model: &'a Model, guard: NumberSet) -> GuardedModel<'a>
        ensures { result ≡ ground_of model.now guard }
    {
        GuardedModel { model, guard }
    }

    // How many states there are.
    pub fn states(&self) -> u8
        ensures count { result ≡ self.now.model.states }
        ensures few { result ≤ 32 }
    {
        self.model.states()
    }

    // The edges, in the order in which they were added.
    pub fn edges(&self) -> &[Edge]
        ensures { result.now ≡ edges_of self.now.model }
    {
        self.model.edges()
    }

    // Whether the guard holds at the state.
    pub fn admits(&self, state: u8) -> bool
        ensures { Decides result (Has self.now.guard state) }
    {
        self.guard.has(state)
    }
}
