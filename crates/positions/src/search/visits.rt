// Visits: the search looks at a position, and finds it if it is forced.
ghost use Rattle.std.specs.Prelude.{◌≡◌, ℕ, ◌<◌, Decides};
ghost use Rattle.model.specs.Relations.{Upto};
ghost use Rattle.model.specs.Sets.{Has};
ghost use Rattle.positions.specs.Pairs.{pair, InRow};
ghost use Rattle.positions.specs.Searches.{Leaves, Led, LedBy, BackBy};
ghost use Rattle.positions.specs.Looking.{model_of, table_of, IsInside, IsSettled, Looks};

use crate::position::Position;
use crate::search::Search;
use charts::step_of;
use language::Watcher;
use model::NumberSet;

impl<'a, W: Watcher> Search<'a, W> {
    // Whether each edge by the action leads from the position to one that is found.
    fn is_led_by(&self, position: Position, action: u8) -> bool
        requires inside { IsInside self.now.setting position }
        requires action { action < (model_of self.now.setting).actions }
        ensures { Decides result (LedBy (model_of self.now.setting) (table_of self.now.setting) self.now.found.rows (pair position) action) }
    {
        let ends = self.setting.charts.out.row(action, position.state);
        let next = step_of(self.setting.watched.watcher, position.watch, action);
        ends.without(self.found.row(next)).is_empty()
    }

    // Whether each edge leads from the position to one that is found. It begins at the action at which it last stopped.
    fn is_led(&mut self, position: Position) -> bool
        requires { IsInside self.old.setting position }
        ensures led { Decides result (Led (model_of self.old.setting) (table_of self.old.setting) self.old.found.rows (pair position)) }
        ensures settled { IsSettled self.old self.new }
    {
        for action in self.progress.get(position)..self.setting.watched.model.actions() {
            if !self.is_led_by(position, action) {
                self.progress.note(position, action);
                return false;
            }
        }
        true
    }

    // Looks at a position that some edge leaves: finds it if it does not free and every edge leads to one that is found.
    fn visit(&mut self, position: Position)
        requires leaves { Leaves (model_of self.old.setting) position.state }
        requires watch { position.watch < (table_of self.old.setting).states }
        ensures { Looks (λ p. p ≡ pair position) self.old self.new }
    {
        if self.setting.freeing.has(position.state) || self.found.has(position) {
            return;
        }
        if self.is_led(position) {
            self.doom(position);
        }
    }

    // Looks at the positions of the states, each of which some edge leaves, with one watcher state. `doom_states` has the
    // same loop round another call: one with the call as a closure would have to say what it does to the search, which
    // `sweep` of `least` tried.
    fn visit_states(&mut self, watch: u8, states: NumberSet)
        requires watch { watch < (table_of self.old.setting).states }
        requires leave { (s : ℕ) → Has states s → Leaves (model_of self.old.setting) s }
        ensures { Looks (InRow watch (Has states)) self.old self.new }
    {
        let mut rest = states;
        while let Some(state) = rest.take_last() {
            self.visit(Position { state, watch });
        }
    }

    // Looks at the positions from which an edge leads by the action to the position.
    fn visit_back(&mut self, position: Position, action: u8)
        requires action { action < (model_of self.old.setting).actions }
        requires state { position.state < 32 }
        requires watch { position.watch < 32 }
        ensures { Looks (BackBy (model_of self.old.setting) (table_of self.old.setting) (pair position) action) self.old self.new }
    {
        let states = self.setting.charts.into.row(action, position.state);
        let mut rest = self.setting.charts.back.row(action, position.watch);
        while let Some(watch) = rest.take_last() {
            self.visit_states(watch, states);
        }
    }

    // Looks at the positions from which an edge leads to the position.
    pub fn expand(&mut self, position: Position)
        requires state { position.state < 32 }
        requires watch { position.watch < 32 }
        ensures { Looks (Upto (BackBy (model_of self.old.setting) (table_of self.old.setting) (pair position)) (model_of self.old.setting).actions) self.old self.new }
    {
        for action in 0..self.setting.watched.model.actions() {
            self.visit_back(position, action);
        }
    }
}
