// Whether an until language has a word.
ghost use Rattle.std.specs.Prelude.{◌≡◌, true, IfOk, Ok, Decides};
ghost use Rattle.model.specs.Refusals.{refusal};
ghost use Rattle.language.specs.Words.{Known};
ghost use Rattle.chart.specs.Causes.{CauseDerives};

use crate::filling::fill;
use language::{Fitting, UntilLanguage};
use model::Refusal;

// A word of more than 31 actions is refused, and so is a language with more than 16 symbols or 128 rules; a word of the set
// has known actions alone.
pub fn derives<L: UntilLanguage>(language: &L, word: &[u8]) -> Result<bool, Refusal>
    ensures cause { CauseDerives word.now (L.symbols language.now) (L.rules language.now) (refusal result) }
    ensures right { IfOk result (λ yes. Decides yes (L.words language.now word.now)) }
    ensures known { result ≡ Ok true → Known (L.known language.now) word.now }
{
    if word.len() > 31 {
        return Err(Refusal::OutOfRange);
    }
    let language = Fitting::of(language)?;
    let chart = fill(&language, word);
    Ok(chart.row(0, 0).has(word.len() as u8))
}
