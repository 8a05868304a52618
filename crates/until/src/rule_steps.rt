// What one rule adds to a table of found facts. That its symbols are below 16 is asked of each step, since rules are made
// for languages beyond the limits too; that there are at most 32 states, since a model tells them as a number, and a size
// made of it would be a call that can refuse. A set of triples
// does not know how many states there are: that its facts are below is asked too. Lefts and rights of a pair stand apart,
// since either can be the fresh ones. Each form goes over the states by itself, since what it adds is another row each
// time.
ghost use Rattle.std.specs.Prelude.{◌<◌, ◌≤◌};
ghost use Rattle.model.specs.Relations.{Joined, Exactly, Triple};
ghost use Rattle.model.specs.Sets.{Has};
ghost use Rattle.language.specs.Rules.{head_of, SymbolsBelow};
ghost use Rattle.until.specs.Consequences.{ByEmpty, BySame, ByPair, ByEdge, Led, GivesAlone, GivesFresh};
ghost use Rattle.triples.specs.Triples.{Holds, Through, TriplesBelow};

use crate::parts::Parts;
use language::Rule;
use logic::GuardedModel;
use model::{Edge, NumberSet};
use triples::TripleSet;

// An empty rule: each state reaches itself.
fn add_empty(found: &mut TripleSet, states: u8, head: u8)
    requires head { head < 16 }
    requires states { states ≤ 32 }
    ensures { Joined (Holds found.old.rows) (Holds found.new.rows) (ByEmpty states head) }
{
    for from in 0..states {
        found.add(head, from, NumberSet::single(from));
    }
}

// A same rule, from the facts of `bodies`.
fn add_same(found: &mut TripleSet, bodies: &TripleSet, states: u8, head: u8, body: u8)
    requires head { head < 16 }
    requires body { body < 16 }
    requires states { states ≤ 32 }
    requires bodies { TriplesBelow 16 states (Holds bodies.now.rows) }
    ensures { Joined (Holds found.old.rows) (Holds found.new.rows) (BySame head body (Holds bodies.now.rows)) }
{
    for from in 0..states {
        found.add(head, from, bodies.row(body, from));
    }
}

// Adds to `reached` the to-states of the right part's facts from some state of `middle`, until every state is reached:
// `TripleSet::through` has no such stop, since it is not told which states there are.
fn onward(
    rights: &TripleSet,
    reached: NumberSet,
    middle: NumberSet,
    right: u8,
    every: NumberSet,
) -> NumberSet
    requires right { right < 16 }
    requires every { (f : Triple) → Holds rights.now.rows f → Has every f.2 }
    ensures { Joined (Has reached) (Has result) (Through (Has middle) (Holds rights.now.rows) right) }
{
    let mut found = reached;
    let mut rest = middle;
    while let Some(state) = rest.take_last() {
        found = found.union(rights.row(right, state));
        if found == every {
            return found;
        }
    }
    found
}

// A pair rule, with its left part among `lefts` and its right part among `rights`. A row with every state gains nothing.
fn add_pair(
    found: &mut TripleSet,
    lefts: &TripleSet,
    rights: &TripleSet,
    states: u8,
    head: u8,
    left: u8,
    right: u8,
)
    requires head { head < 16 }
    requires left { left < 16 }
    requires right { right < 16 }
    requires states { states ≤ 32 }
    requires lefts { TriplesBelow 16 states (Holds lefts.now.rows) }
    requires rights { TriplesBelow 16 states (Holds rights.now.rows) }
    ensures { Joined (Holds found.old.rows) (Holds found.new.rows) (ByPair head left right (Holds lefts.now.rows) (Holds rights.now.rows)) }
{
    let every = NumberSet::below(states);
    let starts = rights.seconds(right);
    for from in 0..states {
        let row = found.row(head, from);
        if row != every {
            let middle = lefts.row(left, from).common(starts);
            found.add(head, from, onward(rights, row, middle, right, every));
        }
    }
}

// Where a letter or lead rule comes by this edge first, with the rest of a lead rule among `rests`.
fn led(rests: &TripleSet, guarded: &GuardedModel, rule: Rule, edge: Edge) -> NumberSet
    requires rule { SymbolsBelow 16 rule }
    requires to { edge.to < 32 }
    ensures { Exactly (Has result) (Led guarded.now rule (Holds rests.now.rows) edge) }
{
    match rule {
        Rule::Letter { action, .. } if edge.action == action && guarded.admits(edge.from) =>
            NumberSet::single(edge.to),
        Rule::Lead { action, rest, .. } if edge.action == action && guarded.admits(edge.from) =>
            rests.row(rest, edge.to),
        _ => NumberSet::empty(),
    }
}

// A letter or lead rule, with the rest of a lead rule among `rests`.
fn add_led(found: &mut TripleSet, rests: &TripleSet, guarded: &GuardedModel, rule: Rule)
    requires { SymbolsBelow 16 rule }
    ensures { Joined (Holds found.old.rows) (Holds found.new.rows) (ByEdge guarded.now (head_of rule) rule (Holds rests.now.rows)) }
{
    for edge in guarded.edges() {
        found.add(rule.head(), edge.from, led(rests, guarded, rule, *edge));
    }
}

// A rule with no symbol in its body; any other adds nothing. A letter rule has no rest, so `rests` may be any table.
pub(crate) fn add_alone(
    found: &mut TripleSet,
    rests: &TripleSet,
    guarded: &GuardedModel,
    rule: Rule,
)
    requires { SymbolsBelow 16 rule }
    ensures { Joined (Holds found.old.rows) (Holds found.new.rows) (GivesAlone guarded.now rule) }
{
    match rule {
        Rule::Empty { head } => add_empty(found, guarded.states(), head),
        Rule::Letter { .. } => add_led(found, rests, guarded, rule),
        Rule::Lead { .. } | Rule::Same { .. } | Rule::Pair { .. } => {}
    }
}

// A rule with a fresh fact among its parts; only the live symbols have one.
pub(crate) fn add_fresh(found: &mut TripleSet, parts: &Parts, guarded: &GuardedModel, rule: Rule)
    requires { SymbolsBelow 16 rule }
    ensures { Joined (Holds found.old.rows) (Holds found.new.rows) (GivesFresh guarded.now rule (Holds parts.now.all.now.rows) (Holds parts.now.fresh.now.rows)) }
{
    match rule {
        Rule::Empty { .. } | Rule::Letter { .. } => {}
        Rule::Lead { rest, .. } => {
            if parts.live.has(rest) {
                add_led(found, parts.fresh, guarded, rule);
            }
        }
        Rule::Same { head, body } => {
            if parts.live.has(body) {
                add_same(found, parts.fresh, parts.states, head, body);
            }
        }
        Rule::Pair { head, left, right } => {
            let states = parts.states;
            if parts.live.has(left) {
                add_pair(found, parts.fresh, parts.all, states, head, left, right);
            }
            if parts.live.has(right) {
                add_pair(found, parts.all, parts.fresh, states, head, left, right);
            }
        }
    }
}
