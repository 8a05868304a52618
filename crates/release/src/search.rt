// The search for the doomed positions: those from which every maximal path breaks the release.
ghost use Rattle.std.specs.Prelude.{◌*◌, ◌≤◌, length};
ghost use Rattle.model.specs.Sets.{Has};
ghost use Rattle.language.specs.Tables.{Accepts};
ghost use Rattle.release.specs.Releases.{Doomed, Released};

use charts::Watched;
use language::Watcher;
use model::NumberSet;
use positions::{Position, Positions, Search};

// The doomed positions: those from which every maximal path breaks the release. Each is laid on the waiting memory once.
// The caller checks the length of the waiting memory, of which nothing is said after the call.
pub fn doomed<W: Watcher>(
    watched: Watched<W>,
    freeing: NumberSet,
    kept: NumberSet,
    waiting: &mut [Position],
) -> Positions
    requires { watched.model.now.states * (W.Watcher.table watched.watcher.now).states ≤ length waiting.old }
    ensures { Doomed watched.entry.model.now (W.Watcher.table watched.entry.watcher.now) (Has freeing) (Has kept) result.rows }
{
    let unkept = NumberSet::below(watched.model.states()).without(kept);
    let mut search = Search::over(watched, freeing, waiting);
    search.doom_marked(unkept);
    while let Some(top) = search.pop() {
        search.expand(top);
    }
    search.found
}

// The states that satisfy the release.
pub fn keeping<W: Watcher>(watched: Watched<W>, freeing: NumberSet, kept: NumberSet) -> NumberSet
    ensures accepted { Released watched.entry.model.now (Has freeing) (Has kept) (Accepts (W.Watcher.table watched.entry.watcher.now)) (watched.entry.model.now.states * (W.Watcher.table watched.entry.watcher.now).states) result }
    ensures words { Released watched.entry.model.now (Has freeing) (Has kept) (W.Watcher.words watched.entry.watcher.now) (watched.entry.model.now.states * (W.Watcher.table watched.entry.watcher.now).states) result }
{
    let states = NumberSet::below(watched.model.states());
    let start = watched.watcher.start();
    let mut waiting = [Position { state: 0, watch: 0 }; 1024];
    let found = doomed(watched, freeing, kept, &mut waiting);
    states.without(found.row(start))
}
