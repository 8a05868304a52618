// Questions.
ghost use Rattle.std.specs.Prelude.{◌≡◌};
ghost use Rattle.sheet.specs.Questions.{unasked};

use model::NumberSet;

// What is asked: a proposition, or a combination of earlier questions by their numbers.
#[derive(Clone, Copy, PartialEq, Eq, Debug)]
pub enum Form {
    Proposition(u8),
    Not(usize),
    Or(usize, usize),
    // guard and goal
    Until(usize, usize),
    // freeing and kept
    Release(usize, usize),
}

// A question with its marks: the states at which it holds.
#[derive(Clone, Copy, PartialEq, Eq, Debug)]
pub struct Question {
    form: Form,
    marks: NumberSet,
}

impl Question {
    pub(crate) fn new(form: Form, marks: NumberSet) -> Question
        ensures { result ≡ record { form = form; marks = marks } }
    {
        Question { form, marks }
    }

    // What is asked.
    pub fn form(self) -> Form
        ensures { result ≡ self.form }
    {
        self.form
    }

    // The states at which the question holds.
    pub fn marks(self) -> NumberSet
        ensures { result ≡ self.marks }
    {
        self.marks
    }
}

// What stands where no question is asked yet: proposition 0, without marks. By hand, since no form is without a number.
impl Default for Question {
    ghost is_default = { λ question. question ≡ unasked };

    fn default() -> Question {
        Question::new(Form::Proposition(0), NumberSet::empty())
    }
}
