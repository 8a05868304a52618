ghost use Rattle.std.specs.Prelude.{◌≡◌, ◌<◌, None, ◌≢◌};
ghost use Rattle.model.specs.Relations.{Exactly, Joined};
ghost use Rattle.triples.specs.Triples.{Holds};
ghost use Rattle.language.specs.Tables.{step};
ghost use Rattle.charts.specs.Arrows.{Into, Out, Back, BackFrom, Charted};

use crate::charts::Charts;
use crate::watched::Watched;
use language::Watcher;
use model::{Model, NumberSet};
use triples::TripleSet;

// The edges, from end to start and from start to end.
fn arrows_of_edges(model: &Model) -> (TripleSet, TripleSet)
    ensures into { Exactly (Holds result.0.rows) (Into model.now) }
    ensures out { Exactly (Holds result.1.rows) (Out model.now) }
{
    let mut into = TripleSet::empty();
    let mut out = TripleSet::empty();
    for edge in model.edges() {
        into.add(edge.action, edge.to, NumberSet::single(edge.from));
        out.add(edge.action, edge.from, NumberSet::single(edge.to));
    }
    (into, out)
}

// The watcher state after a step that is there.
pub fn step_of<W: Watcher>(watcher: &W, watch: u8, action: u8) -> u8
    requires { (W.Watcher.table watcher.now).next watch action ≢ None }
    ensures { result ≡ step (W.Watcher.table watcher.now) watch action }
{
    watcher.next(watch, action).unwrap()
}

// Adds the watcher's steps from one of its states, from end to start.
fn add_steps<W: Watcher>(watched: &Watched<W>, arrows: &mut TripleSet, watch: u8)
    requires { watch < (W.Watcher.table watched.now.watcher.now).states }
    ensures { Joined (Holds arrows.old.rows) (Holds arrows.new.rows) (BackFrom watched.now.model.now.actions (W.Watcher.table watched.now.watcher.now) watch) }
{
    for action in 0..watched.model.actions() {
        let next = step_of(watched.watcher, watch, action);
        arrows.add(action, next, NumberSet::single(watch));
    }
}

// The watcher's steps, from end to start.
fn arrows_back<W: Watcher>(watched: &Watched<W>) -> TripleSet
    ensures { Exactly (Holds result.rows) (Back watched.now.model.now.actions (W.Watcher.table watched.now.watcher.now)) }
{
    let mut arrows = TripleSet::empty();
    let watches = watched.watcher.state_count() as u8;
    for watch in 0..watches {
        add_steps(watched, &mut arrows, watch);
    }
    arrows
}

impl Charts {
    // The charts of a watcher and a model with the same actions. By `of`: in a `From` its one clause would be a relation of
    // its own, over the ghost members of the watcher.
    pub fn of<W: Watcher>(watched: &Watched<W>) -> Charts
        ensures { Charted watched.now.model.now (W.Watcher.table watched.now.watcher.now) result }
    {
        let (into, out) = arrows_of_edges(watched.model);
        Charts {
            into,
            out,
            back: arrows_back(watched),
        }
    }
}
