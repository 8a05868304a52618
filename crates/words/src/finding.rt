// What comes of asking whether a word is in a set, in words.
ghost use Rattle.std.specs.Prelude.{Some};
ghost use Rattle.words.specs.Answers.{said};

use model::Refusal;
use std::fmt;

// The answer that a question came back with.
#[derive(Clone, Copy)]
pub struct Finding(pub Result<bool, Refusal>);

impl fmt::Display for Finding {
    ghost output = { λ finding. Some (said finding.0) };

    fn fmt<W: fmt::Write>(&self, f: &mut fmt::Formatter<W>) -> fmt::Result {
        match self.0 {
            Ok(true) => write!(f, "in"),
            Ok(false) => write!(f, "out"),
            Err(refusal) => write!(f, "refused with {refusal}"),
        }
    }
}
