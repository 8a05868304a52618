// The search: what is found, and what of it waits.
ghost use Rattle.positions.specs.Searches.{Noted, Roomy};

use crate::position::Position;
use crate::positions::Positions;
use crate::progress::Progress;
use crate::setting::Setting;
use language::Watcher;
use pile::Pile;

// The positions that are found, and on the pile those of them that wait to be looked at.
#[derive(Drop)]
pub struct Search<'a, W: Watcher> {
    pub setting: Setting<'a, W>,
    pub found: Positions,
    progress: Progress,
    pub pile: Pile<'a, Position>,
    ghost noted: { Noted setting.watched.model.now (W.Watcher.table setting.watched.watcher.now) found.rows progress.actions },
    ghost roomy: { Roomy setting.watched.model.now (W.Watcher.table setting.watched.watcher.now).states found.rows pile },
}

mod beginning;
mod visits;
