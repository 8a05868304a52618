ghost use Rattle.std.specs.Prelude.{◌≡◌, ◌≤◌};
ghost use Rattle.language.specs.Words.{Word};
ghost use Rattle.language.specs.Tables.{Table, Accepts, Complete};

use crate::alphabet::Alphabet;

// A set of words, told by a deterministic table: a word is in the set where the run over it ends in a marked state.
// With more than 32 states none of the laws is owed, and calls refuse the watcher.
pub trait Watcher: Alphabet {
    ghost words: { Self → Word → Type 0 };

    ghost table: { Self → Table };

    // How many states there are.
    fn state_count(&self) -> usize
        ensures { result ≡ (table self.now).states };

    // The state in which a run starts.
    fn start(&self) -> u8
        ensures { result ≡ (table self.now).start };

    // The state after a state and an action; none where either is not there.
    fn next(&self, state: u8, action: u8) -> Option<u8>
        ensures { result ≡ (table self.now).next state action };

    // Whether the state is marked; a state that is not there is not.
    fn is_marked(&self, state: u8) -> bool
        ensures { result ≡ (table self.now).marked state };

    ghost complete: { (l : Self) → (table l).states ≤ 32 → Complete (Self.Alphabet.known l) (table l) };

    ghost accepted: { (l : Self) (w : Word) → (table l).states ≤ 32 → words l w → Accepts (table l) w };

    ghost only_accepted: { (l : Self) (w : Word) → (table l).states ≤ 32 → Accepts (table l) w → words l w };
}
