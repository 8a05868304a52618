// The search begins with nothing found, and lays on the pile what it finds.
ghost use Rattle.std.specs.Prelude.{◌≡◌, ℕ, ◌*◌, ◌<◌, ◌≤◌, [], ◌∷◌, ◌++◌, length, MatchOption, IfSome};
ghost use Rattle.model.specs.Sets.{Has};
ghost use Rattle.pile.specs.Items.{items};
ghost use Rattle.positions.specs.Pairs.{pair, Holds, InRow};
ghost use Rattle.positions.specs.Looking.{model_of, table_of, IsInside, Finds};
ghost use Rattle.positions.specs.Beginnings.{Begun};

use crate::position::Position;
use crate::positions::Positions;
use crate::progress::Progress;
use crate::search::Search;
use crate::setting::Setting;
use charts::{Charts, Watched};
use language::Watcher;
use model::NumberSet;
use pile::Pile;

impl<'a, W: Watcher> Search<'a, W> {
    // A search with nothing found; what is found waits on the memory that is lent.
    pub fn over(
        watched: Watched<'a, W>,
        freeing: NumberSet,
        waiting: &'a mut [Position],
    ) -> Search<'a, W>
        requires { watched.model.now.states * (W.Watcher.table watched.watcher.now).states ≤ length waiting.old }
        ensures watched { result.setting.watched ≡ watched.entry }
        ensures freeing { result.setting.freeing ≡ freeing }
        ensures found { (p : ℕ × ℕ) → Holds result.found.rows p → ⊥ }
        ensures waiting { items result.pile ≡ [] }
    {
        let charts = Charts::of(&watched);
        Search {
            setting: Setting {
                watched,
                charts,
                freeing,
            },
            found: Positions::none(),
            progress: Progress::none(),
            pile: Pile::over(waiting),
        }
    }

    // Finds a position and lays it on the pile.
    pub(crate) fn doom(&mut self, position: Position)
        requires inside { IsInside self.old.setting position }
        requires new { Holds self.old.found.rows (pair position) → ⊥ }
        ensures { Finds (λ p. p ≡ pair position) self.old self.new }
    {
        self.found.add(position);
        let _ = self.pile.push(position);
    }

    // Finds the positions of the states, none of which is found, with one watcher state, and lays them on the pile.
    // `visit_states` has the same loop round another call, and says why the two stay apart.
    fn doom_states(&mut self, watch: u8, states: NumberSet)
        requires watch { watch < (table_of self.old.setting).states }
        requires states { (s : ℕ) → Has states s → s < (model_of self.old.setting).states }
        requires new { (s : ℕ) → Has states s → Holds self.old.found.rows (s, watch) → ⊥ }
        ensures { Finds (InRow watch (Has states)) self.old self.new }
    {
        let mut rest = states;
        while let Some(state) = rest.take_last() {
            self.doom(Position { state, watch });
        }
    }

    // Begins a search that has found nothing: finds the positions of the states at which the watcher marks,
    // and lays them on the pile.
    pub fn doom_marked(&mut self, states: NumberSet)
        requires states { (s : ℕ) → Has states s → s < (model_of self.old.setting).states }
        requires new { (p : ℕ × ℕ) → Holds self.old.found.rows p → ⊥ }
        ensures { Begun (Has states) (table_of self.old.setting).states self.old self.new }
    {
        let watches = self.setting.watched.watcher.state_count() as u8;
        for watch in 0..watches {
            if self.setting.watched.watcher.is_marked(watch) {
                self.doom_states(watch, states);
            }
        }
    }

    // Takes the position that was laid on the pile last.
    pub fn pop(&mut self) -> Option<Position>
        ensures waiting { MatchOption result (items self.old.pile ≡ []) (λ top. items self.old.pile ≡ items self.new.pile ++ top ∷ []) }
        ensures inside { IfSome result (IsInside self.old.setting) }
        ensures setting { self.new.setting ≡ self.old.setting }
        ensures found { self.new.found ≡ self.old.found }
    {
        self.pile.pop()
    }
}
