// All facts of a language on a guarded model.
ghost use Rattle.std.specs.Prelude.{◌≡◌, ℕ, ◌*◌, ◌<◌, ◌≤◌, length, slice_index};
ghost use Rattle.model.specs.Relations.{Exactly};
ghost use Rattle.language.specs.Derivations.{Derives};
ghost use Rattle.logic.specs.Facts.{Fact, LeastHeight};
ghost use Rattle.triples.specs.Triples.{Holds};
ghost use Rattle.logic.specs.Layouts.{spot};

use crate::noting::{clear, note};
use crate::parts::Parts;
use crate::rounds::{first_facts, further_facts};
use language::{Fitting, UntilLanguage};
use logic::{GuardedModel, Layout};
use triples::TripleSet;

// All facts, round by round until a round finds no more; each fact is combined with the others in one round only.
// The work table gets the least height of each fact, which is the round in which it came, and 0 where there is none, since
// the caller lends a table of numbers. The words that symbol 0 derives are those of the language. The sheet checks the size
// of the table.
pub fn fill<L: UntilLanguage>(
    language: &Fitting<L>,
    guarded: &GuardedModel,
    work: &mut [u32],
) -> TripleSet
    requires { L.symbols language.now * guarded.now.model.states * guarded.now.model.states ≤ length work.old }
    ensures facts { Exactly (Holds result.rows) (Fact guarded.now (L.rules language.now)) }
    ensures derived { Exactly (L.words language.now) (Derives (L.rules language.now) 0) }
    ensures heights { (k : ℕ) → k < L.symbols language.now * guarded.now.model.states * guarded.now.model.states → LeastHeight guarded.now (L.rules language.now) (spot guarded.now.model.states k) (slice_index work.new k) }
    ensures others { (k : ℕ) → L.symbols language.now * guarded.now.model.states * guarded.now.model.states ≤ k → slice_index work.new k ≡ slice_index work.old k }
{
    let layout = Layout {
        symbols: language.symbols(),
        states: guarded.states(),
    };
    clear(work, layout.entries());
    let mut all = TripleSet::empty();
    let mut fresh = first_facts(language, guarded);
    let mut size = 0u32;
    let mut round = 0u32;
    loop {
        all.include(&fresh);
        let grown = all.count();
        if grown == size {
            return all;
        }
        size = grown;
        round += 1;
        note(work, &fresh, layout, round);
        let parts = Parts::of(&all, &fresh, layout.states);
        fresh = further_facts(language, guarded, &parts).without(&all);
    }
}
