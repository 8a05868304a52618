ghost use Rattle.std.specs.Prelude.{◌≡◌, ℕ, ◌<◌, Decides, slice_index_or};
ghost use Rattle.model.specs.Relations.{Joined};
ghost use Rattle.model.specs.Sets.{nothing};
ghost use Rattle.positions.specs.Pairs.{pair, Holds};

use crate::position::Position;
use crate::positions::Positions;
use model::NumberSet;

impl Positions {
    // No position.
    pub fn none() -> Positions
        ensures { (p : ℕ × ℕ) → Holds result.rows p → ⊥ }
    {
        Positions {
            rows: [NumberSet::empty(); 32],
        }
    }

    // The states that stand with the watcher state, which the caller keeps below 32.
    pub fn row(&self, watch: u8) -> NumberSet
        requires { watch < 32 }
        ensures { result ≡ slice_index_or self.now.rows watch nothing }
    {
        self.rows[watch as usize]
    }

    // Whether the position, of which the caller keeps the watcher state below 32, is there.
    pub fn has(&self, position: Position) -> bool
        requires { position.watch < 32 }
        ensures { Decides result (Holds self.now.rows (pair position)) }
    {
        self.row(position.watch).has(position.state)
    }

    // Adds the position.
    pub(crate) fn add(&mut self, position: Position)
        requires state { position.state < 32 }
        requires watch { position.watch < 32 }
        ensures { Joined (Holds self.old.rows) (Holds self.new.rows) (λ p. p ≡ pair position) }
    {
        let row = self
            .row(position.watch)
            .union(NumberSet::single(position.state));
        self.rows[position.watch as usize] = row;
    }
}
