// A sheet of questions about a model, each answered as it is asked.
#![tactic(auto)]

mod question;
mod sheet;

pub use question::{Form, Question};
pub use sheet::Sheet;

// A record of the waiting memory that a path call is lent.
pub use least::Fact;
