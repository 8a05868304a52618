ghost use Rattle.std.specs.Prelude.{◌≡◌, ℕ, ◌<◌};
ghost use Rattle.positions.specs.Searches.{noted_at, noting};
ghost use Rattle.positions.specs.Pairs.{pair};

use crate::position::Position;
use crate::progress::Progress;

impl Progress {
    // Nothing has been looked at.
    pub fn none() -> Progress
        ensures { (p : ℕ × ℕ) → noted_at result.actions p ≡ 0 }
    {
        Progress {
            actions: [[0; 32]; 32],
        }
    }

    // How many actions of the position have been looked at.
    pub(crate) fn get(&self, position: Position) -> u8
        requires state { position.state < 32 }
        requires watch { position.watch < 32 }
        ensures { result ≡ noted_at self.now.actions (pair position) }
    {
        self.actions[position.watch as usize][position.state as usize]
    }

    // Notes how many actions of the position have been looked at.
    pub(crate) fn note(&mut self, position: Position, count: u8)
        requires state { position.state < 32 }
        requires watch { position.watch < 32 }
        ensures { self.new.actions ≡ noting self.old.actions (pair position) count }
    {
        self.actions[position.watch as usize][position.state as usize] = count;
    }
}
