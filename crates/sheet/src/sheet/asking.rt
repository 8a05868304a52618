// The calls that ask a question.
ghost use Rattle.std.specs.Prelude.{◌≡◌, ℕ, ◌<◌, ◌⊎◌, length};
ghost use Rattle.model.specs.Models.{Labelled as LabelledAt};
ghost use Rattle.model.specs.Sets.{Has};
ghost use Rattle.logic.specs.Formulas.{proposition as prop, neg, or as either};
ghost use Rattle.sheet.specs.Orders.{Part, Added, at};
ghost use Rattle.sheet.specs.Books.{formula, model_of};
ghost use Rattle.sheet.specs.Causes.{CauseProposition, CauseNot, CauseOr};
ghost use Rattle.sheet.specs.Asking.{Asked};
ghost use Rattle.sheet.specs.declared.question.Form.TheVariants.{Proposition as PropositionForm, Not as NotForm, Or as OrForm};

use crate::question::{Form, Question};
use crate::sheet::Sheet;
use model::{NumberSet, Refusal};

impl Sheet<'_> {
    // Adds a question whose parts are there and whose marks are states of the model, and gives its number.
    pub(crate) fn add(&mut self, form: Form, marks: NumberSet) -> usize
        requires room { length self.old.questions.items < 64 }
        requires lower { (p : ℕ) → Part form p → p < length self.old.questions.items }
        requires within { (s : ℕ) → Has marks s → s < (model_of self.old).states }
        ensures number { result ≡ length self.old.questions.items }
        ensures model { model_of self.new ≡ model_of self.old }
        ensures added { Added self.old.questions.items self.new.questions.items (record { form = form; marks = marks }) }
    {
        let number = self.questions.len();
        self.questions.push(Question::new(form, marks));
        number
    }

    // Asks for the states at which the proposition p holds.
    pub fn proposition(&mut self, p: u8) -> Result<usize, Refusal>
        ensures { Asked self.old self.new (CauseProposition p) (PropositionForm p) (λ s. (s < (model_of self.old).states) × LabelledAt (model_of self.old) s p) (λ _. prop p) result }
    {
        self.check_proposition(p)?;
        let marks = self.model.labelled(p);
        Ok(self.add(Form::Proposition(p), marks))
    }

    // Asks for the states at which question q does not hold.
    pub fn not(&mut self, q: usize) -> Result<usize, Refusal>
        ensures { Asked self.old self.new (CauseNot q) (NotForm q) (λ s. (s < (model_of self.old).states) × (Has (at self.old.questions.items q).marks s → ⊥)) (λ book. neg (formula book q)) result }
    {
        let part = self.part(q)?;
        let marks = NumberSet::below(self.model.states()).without(part);
        Ok(self.add(Form::Not(q), marks))
    }

    // Asks for the states at which one of two questions holds.
    pub fn or(&mut self, left: usize, right: usize) -> Result<usize, Refusal>
        ensures { Asked self.old self.new (CauseOr left right) (OrForm left right) (λ s. Has (at self.old.questions.items left).marks s ⊎ Has (at self.old.questions.items right).marks s) (λ book. either (formula book left) (formula book right)) result }
    {
        let (one, other) = self.parts(left, right)?;
        Ok(self.add(Form::Or(left, right), one.union(other)))
    }
}
