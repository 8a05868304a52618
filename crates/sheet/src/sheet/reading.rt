// What a sheet tells.
ghost use Rattle.std.specs.Prelude.{◌≡◌, [], length, IfOk};
ghost use Rattle.model.specs.Refusals.{refusal};
ghost use Rattle.sheet.specs.Orders.{at};
ghost use Rattle.sheet.specs.Books.{Book, Stands, model_of};
ghost use Rattle.sheet.specs.Causes.{CauseMarks};
ghost use Rattle.sheet.specs.Asking.{MarksRead};

use crate::question::Question;
use crate::sheet::Sheet;
use arrayvec::ArrayVec;
use model::{Model, NumberSet, Refusal};

impl<'m> Sheet<'m> {
    // A sheet with no question.
    pub fn open(model: &'m Model) -> Sheet<'m>
        ensures model { model_of result ≡ model.now }
        ensures stands { Stands [] result }
    {
        Sheet {
            model,
            questions: ArrayVec::new(),
        }
    }

    // How many questions have been asked.
    pub fn len(&self) -> usize
        ensures count { result ≡ length self.now.questions.items }
        ensures books { (book : Book) → Stands book self.now → result ≡ length book }
    {
        self.questions.len()
    }

    // The record of question q.
    pub fn question(&self, q: usize) -> Result<Question, Refusal>
        ensures cause { CauseMarks q (length self.now.questions.items) (refusal result) }
        ensures value { IfOk result (λ x. x ≡ at self.now.questions.items q) }
    {
        self.questions
            .get(q)
            .copied()
            .ok_or(Refusal::NoSuchQuestion)
    }

    // The states that satisfy question q.
    pub fn marks(&self, q: usize) -> Result<NumberSet, Refusal>
        ensures cause { CauseMarks q (length self.now.questions.items) (refusal result) }
        ensures books { (book : Book) → Stands book self.now → CauseMarks q (length book) (refusal result) }
        ensures value { IfOk result (λ x. MarksRead self.now q x) }
    {
        Ok(self.question(q)?.marks())
    }
}
