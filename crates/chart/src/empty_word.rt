// Which symbols of an until language derive the empty word.
ghost use Rattle.std.specs.Prelude.{◌<◌, []};
ghost use Rattle.model.specs.Relations.{Exactly};
ghost use Rattle.model.specs.Sets.{Has};
ghost use Rattle.language.specs.Derivations.{Derives};

use crate::filling::fill;
use language::{Fitting, UntilLanguage};
use model::NumberSet;
use triples::passing;

// The symbols that derive the empty word, of a language within the limits. Nothing calls it yet.
pub(crate) fn emptying<L: UntilLanguage>(language: &Fitting<L>) -> NumberSet
    ensures { Exactly (Has result) (λ x. (x < 16) × Derives (L.rules language.now) x []) }
{
    let chart = fill(language, &[]);
    passing(16, |symbol| chart.row(symbol, 0).has(0))
}
