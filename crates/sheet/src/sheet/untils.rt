// The until question, over any until language.
ghost use Rattle.std.specs.Prelude.{◌≡◌, ◌<◌, length, OnErr};
ghost use Rattle.model.specs.Sets.{Has};
ghost use Rattle.logic.specs.Formulas.{until as until_of};
ghost use Rattle.logic.specs.Paths.{SomeGood};
ghost use Rattle.sheet.specs.Orders.{at};
ghost use Rattle.sheet.specs.Books.{formula, model_of};
ghost use Rattle.sheet.specs.Causes.{CauseUntil, told};
ghost use Rattle.sheet.specs.Asking.{Asked};
ghost use Rattle.sheet.specs.declared.question.Form.TheVariants.{Until as UntilForm};

use crate::question::Form;
use crate::sheet::Sheet;
use language::UntilLanguage;
use logic::GuardedModel;
use model::Refusal;
use until::satisfying;

impl Sheet<'_> {
    // Asks for the states from which some path has its word in the language, the guard at every state before its end,
    // and the goal at its end. The work table is scratch: with K symbols and S states, at least K * S * S entries.
    pub fn until<L: UntilLanguage>(
        &mut self,
        guard: usize,
        goal: usize,
        language: &L,
        work: &mut [u32],
    ) -> Result<usize, Refusal>
        ensures asked { Asked self.old self.new (CauseUntil (model_of self.old) (told (L.Alphabet.known language.now) (L.UntilLanguage.symbols language.now) (L.UntilLanguage.rules language.now)) (length work.old) guard goal) (UntilForm guard goal) (λ s. (s < (model_of self.old).states) × SomeGood (model_of self.old) (Has (at self.old.questions.items guard).marks) (Has (at self.old.questions.items goal).marks) (L.UntilLanguage.words language.now) s) (λ book. until_of (formula book guard) (formula book goal) (L.UntilLanguage.rules language.now)) result }
        ensures work { OnErr result (work.new ≡ work.old) }
    {
        let (fitting, (holds, reached)) = self.until_parts(guard, goal, language, work.len())?;
        let guarded = GuardedModel::of(self.model, holds);
        let marks = satisfying(&fitting, &guarded, reached, work);
        Ok(self.add(Form::Until(guard, goal), marks))
    }
}
