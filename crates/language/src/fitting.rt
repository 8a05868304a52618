// Languages within the limits of calls.
ghost use Rattle.std.specs.Prelude.{◌≡◌, IfOk};
ghost use Rattle.model.specs.Refusals.{refusal};
ghost use Rattle.model.specs.Relations.{Exactly};
ghost use Rattle.language.specs.Rules.{RulesWithin};
ghost use Rattle.language.specs.Derivations.{Derives};
ghost use Rattle.language.specs.Limits.{WithinLimits, CauseLarge};

use crate::rules::Rules;
use crate::until_language::UntilLanguage;
use model::Refusal;
use std::marker::Model;

// An until language with at most 16 symbols and 128 rules, so that all its laws are owed: its words are those that its rules
// derive. It is seen as that language, and so each call says what its type knows. It is made by `of`: in a
// `TryFrom` its clauses would be one record, which each caller takes apart.
#[derive(Drop)]
pub struct Fitting<'a, L: UntilLanguage> {
    language: &'a L,
}

impl<'a, L: UntilLanguage> Model for Fitting<'a, L> {
    ghost use Rattle.language.specs.Limits.{WithinLimits};

    ghost Value = { L };

    ghost view = { λ s. s.language.now };

    ghost invariant = { λ s. WithinLimits (L.symbols s.language.now) (L.rules s.language.now) };
}

impl<'a, L: UntilLanguage> Fitting<'a, L> {
    // The language, if it is not too large.
    pub fn of(language: &'a L) -> Result<Fitting<'a, L>, Refusal>
        ensures cause { CauseLarge (L.symbols language.now) (L.rules language.now) (refusal result) }
        ensures same { IfOk result (λ f. f ≡ language.now) }
        ensures limits { IfOk result (λ f. WithinLimits (L.symbols f) (L.rules f)) }
        ensures derived { IfOk result (λ f. Exactly (L.words f) (Derives (L.rules f) 0)) }
    {
        if language.symbol_count() > 16 || language.rule_count() > 128 {
            return Err(Refusal::TooLarge);
        }
        Ok(Fitting { language })
    }

    // How many symbols there are.
    pub fn symbols(&self) -> u8
        ensures count { result ≡ L.symbols self.now }
        ensures limits { WithinLimits (L.symbols self.now) (L.rules self.now) }
        ensures derived { Exactly (L.words self.now) (Derives (L.rules self.now) 0) }
    {
        self.language.symbol_count() as u8
    }

    // The rules, one after another.
    pub fn rules(&self) -> Rules<'a, L>
        ensures rules { result ≡ L.rules self.now }
        ensures limits { WithinLimits (L.symbols self.now) (L.rules self.now) }
        ensures named { RulesWithin (L.symbols self.now) (L.rules self.now) }
        ensures derived { Exactly (L.words self.now) (Derives (L.rules self.now) 0) }
    {
        Rules::of(self.language)
    }
}
