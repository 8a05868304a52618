// What all the rules of a language find in one round.
ghost use Rattle.model.specs.Relations.{Exactly, Joined};
ghost use Rattle.until.specs.Consequences.{ByRulesAlone, ByRulesFresh};
ghost use Rattle.triples.specs.Triples.{Holds};

use crate::parts::Parts;
use crate::rule_steps::{add_alone, add_fresh};
use language::{Fitting, UntilLanguage};
use logic::GuardedModel;
use triples::TripleSet;

// The facts of the first round: what the rules give that have no symbol in their bodies.
pub(crate) fn first_facts<L: UntilLanguage>(
    language: &Fitting<L>,
    guarded: &GuardedModel,
) -> TripleSet
    ensures { Exactly (Holds result.rows) (ByRulesAlone guarded.now (L.rules language.now)) }
{
    let none = TripleSet::empty();
    let mut found = TripleSet::empty();
    for rule in language.rules() {
        add_alone(&mut found, &none, guarded, rule);
    }
    found
}

// All facts after one round more: with what the rules give that have a fresh fact among their parts.
pub(crate) fn further_facts<L: UntilLanguage>(
    language: &Fitting<L>,
    guarded: &GuardedModel,
    parts: &Parts,
) -> TripleSet
    ensures { Joined (Holds parts.now.all.now.rows) (Holds result.rows) (ByRulesFresh guarded.now (L.rules language.now) (Holds parts.now.all.now.rows) (Holds parts.now.fresh.now.rows)) }
{
    let mut found = *parts.all;
    for rule in language.rules() {
        add_fresh(&mut found, parts, guarded, rule);
    }
    found
}
