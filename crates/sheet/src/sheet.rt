// A sheet: a model and the questions asked of it.
ghost use Rattle.std.specs.Prelude.{◌≤◌, length};
ghost use Rattle.sheet.specs.Orders.{PartsLower, MarksWithin};

use crate::question::Question;
use arrayvec::ArrayVec;
use model::Model;

// The questions are numbered from 0. Each one's parts have lower numbers than it has, and its marks are states of the
// model.
#[derive(Drop)]
pub struct Sheet<'m> {
    model: &'m Model,
    questions: ArrayVec<Question, 64>,
    ghost room: { length questions.items ≤ 64 },
    ghost lower: { PartsLower questions.items },
    ghost within: { MarksWithin model.now.states questions.items },
}

mod asking;
mod causes;
mod paths;
mod reading;
mod releases;
mod untils;
