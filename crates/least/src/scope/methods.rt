ghost use Rattle.std.specs.Prelude.{◌≡◌, ◌≤◌, Decides};
ghost use Rattle.model.specs.Models.{edges_of};
ghost use Rattle.model.specs.Sets.{Has};

use crate::scope::Scope;
use logic::{GuardedModel, Layout};
use model::Edge;

impl<'a> Scope<'a> {
    // The caller sees to it that there are at most 16 symbols.
    pub fn new(ground: &'a GuardedModel<'a>, symbols: u8) -> Scope<'a>
        requires { symbols ≤ 16 }
        ensures ground { result.ground.now ≡ ground.now }
        ensures symbols { result.symbols ≡ symbols }
    {
        Scope {
            ground,
            symbols,
            states: ground.states(),
        }
    }

    // How many states the model has.
    pub(crate) fn states(&self) -> u8
        ensures { result ≡ self.now.states }
    {
        self.states
    }

    // The edges of the model.
    pub(crate) fn edges(&self) -> &'a [Edge]
        ensures { result.now ≡ edges_of self.now.ground.now.model }
    {
        self.ground.edges()
    }

    // Whether the guard holds at the state.
    pub(crate) fn admits(&self, state: u8) -> bool
        ensures { Decides result (Has self.now.ground.now.guard state) }
    {
        self.ground.admits(state)
    }

    // How the facts lie in a table.
    pub(crate) fn layout(&self) -> Layout
        ensures symbols { result.symbols ≡ self.now.symbols }
        ensures states { result.states ≡ self.now.states }
    {
        Layout {
            symbols: self.symbols,
            states: self.states,
        }
    }
}
