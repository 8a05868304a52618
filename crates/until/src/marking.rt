// The states that satisfy an until.
ghost use Rattle.std.specs.Prelude.{◌≡◌, ℕ, ◌*◌, ◌<◌, ◌≤◌, length, slice_index};
ghost use Rattle.model.specs.Relations.{Exactly};
ghost use Rattle.model.specs.Sets.{Has};
ghost use Rattle.language.specs.Derivations.{Derives};
ghost use Rattle.logic.specs.Paths.{SomeGood};
ghost use Rattle.triples.specs.Triples.{Holds};

use crate::filling::fill;
use language::{Fitting, UntilLanguage};
use logic::GuardedModel;
use model::NumberSet;
use triples::{TripleSet, passing};

// The states below `states` from which symbol 0 has a fact to a state of the goal. `satisfying` calls this with
// the number of states of a model.
pub fn reaching(table: &TripleSet, goal: NumberSet, states: u8) -> NumberSet
    requires { states ≤ 32 }
    ensures { Exactly (Has result) (λ s. (s < states) × (t : ℕ) × Holds table.now.rows (0, s, t) × Has goal t) }
{
    passing(states, |s| !table.row(0, s).common(goal).is_empty())
}

// The states from which some good path starts: its word is in the language, the guard holds before its end, and the
// goal at its end. Another crate of ours calls this, and checks the size of the table.
pub fn satisfying<L: UntilLanguage>(
    language: &Fitting<L>,
    guarded: &GuardedModel,
    goal: NumberSet,
    work: &mut [u32],
) -> NumberSet
    requires { L.symbols language.now * guarded.now.model.states * guarded.now.model.states ≤ length work.old }
    ensures derived { Exactly (Has result) (λ s. (s < guarded.now.model.states) × SomeGood guarded.now.model (Has guarded.now.guard) (Has goal) (Derives (L.rules language.now) 0) s) }
    ensures words { Exactly (Has result) (λ s. (s < guarded.now.model.states) × SomeGood guarded.now.model (Has guarded.now.guard) (Has goal) (L.words language.now) s) }
    ensures others { (k : ℕ) → L.symbols language.now * guarded.now.model.states * guarded.now.model.states ≤ k → slice_index work.new k ≡ slice_index work.old k }
{
    let table = fill(language, guarded, work);
    reaching(&table, goal, guarded.states())
}
