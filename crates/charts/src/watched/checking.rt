ghost use Rattle.std.specs.Prelude.{◌≡◌, ◌≢◌, IfOk};
ghost use Rattle.model.specs.Refusals.{refusal, Refuse};
ghost use Rattle.language.specs.Limits.{CauseManyStates};

use crate::watched::Watched;
use language::{Watcher, check_states};
use model::{Model, Refusal};

impl<'a, W: Watcher> Watched<'a, W> {
    // The watcher beside the model, if it has the model's actions and is not too large.
    pub fn of(watcher: &'a W, model: &'a Model) -> Result<Watched<'a, W>, Refusal>
        ensures cause { Refuse (W.Alphabet.known watcher.now ≢ model.now.actions) 7 (CauseManyStates (W.Watcher.table watcher.now)) (refusal result) }
        ensures watcher { IfOk result (λ w. w.watcher.now ≡ watcher.now) }
        ensures model { IfOk result (λ w. w.model.now ≡ model.now) }
    {
        if watcher.action_count() != model.actions() {
            return Err(Refusal::OtherAlphabet);
        }
        check_states(watcher)?;
        Ok(Watched { watcher, model })
    }
}
