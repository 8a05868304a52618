// Whether a watcher's set has a word.
ghost use Rattle.std.specs.Prelude.{◌≡◌, true, IfOk, Ok, Decides};
ghost use Rattle.model.specs.Refusals.{refusal};
ghost use Rattle.language.specs.Words.{Known};
ghost use Rattle.language.specs.Limits.{CauseManyStates};

use language::{Watcher, check_states};
use model::Refusal;

// Runs the watcher over the word; one with more than 32 states is refused, and a word of the set has known actions alone.
pub fn accepts<W: Watcher>(watcher: &W, word: &[u8]) -> Result<bool, Refusal>
    ensures cause { CauseManyStates (W.Watcher.table watcher.now) (refusal result) }
    ensures right { IfOk result (λ yes. Decides yes (W.Watcher.words watcher.now word.now)) }
    ensures known { result ≡ Ok true → Known (W.Alphabet.known watcher.now) word.now }
{
    check_states(watcher)?;
    let end = word.iter().try_fold(
        watcher.start(),
        |state, action| watcher.next(state, *action),
    );
    Ok(end.is_some_and(|state| watcher.is_marked(state)))
}
