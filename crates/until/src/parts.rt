// The facts that a round combines.
ghost use Rattle.std.specs.Prelude.{◌≡◌, ◌≤◌};
ghost use Rattle.model.specs.Sets.{Has};
ghost use Rattle.model.specs.Relations.{Triple};
ghost use Rattle.triples.specs.Triples.{Holds, TriplesBelow};

use model::NumberSet;
use triples::TripleSet;

// All facts so far, those of them that are fresh, and the symbols that have a fresh one, over so many states.
#[derive(Drop)]
pub(crate) struct Parts<'a> {
    pub(crate) all: &'a TripleSet,
    pub(crate) fresh: &'a TripleSet,
    pub(crate) live: NumberSet,
    pub(crate) states: u8,
    ghost few_states: { states ≤ 32 },
    ghost all_below: { TriplesBelow 16 states (Holds all.now.rows) },
    ghost fresh_below: { TriplesBelow 16 states (Holds fresh.now.rows) },
    ghost all_live: { (f : Triple) → Holds fresh.now.rows f → Has live f.0 },
}

impl<'a> Parts<'a> {
    pub(crate) fn of(all: &'a TripleSet, fresh: &'a TripleSet, states: u8) -> Parts<'a>
        requires states { states ≤ 32 }
        requires all { TriplesBelow 16 states (Holds all.now.rows) }
        requires fresh { TriplesBelow 16 states (Holds fresh.now.rows) }
        ensures all { result.all.now ≡ all.now }
        ensures fresh { result.fresh.now ≡ fresh.now }
    {
        Parts {
            all,
            fresh,
            live: fresh.firsts(),
            states,
        }
    }
}
