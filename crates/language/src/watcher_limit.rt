// The limit of calls on watchers.
ghost use Rattle.std.specs.Prelude.{◌≤◌, OnOk};
ghost use Rattle.model.specs.Refusals.{refusal};
ghost use Rattle.language.specs.Limits.{CauseManyStates};

use crate::watcher::Watcher;
use model::Refusal;

// Refuses a watcher with more than 32 states; of any other all laws are owed.
pub fn check_states<W: Watcher>(watcher: &W) -> Result<(), Refusal>
    ensures cause { CauseManyStates (W.table watcher.now) (refusal result) }
    ensures limit { OnOk result ((W.table watcher.now).states ≤ 32) }
{
    if watcher.state_count() > 32 {
        return Err(Refusal::TooLarge);
    }
    Ok(())
}
