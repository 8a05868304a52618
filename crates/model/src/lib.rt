// Finite models of a sync rule set: numbered states and actions, edges and propositions.
#![tactic(auto)]

mod draft;
mod edge;
mod model;
mod number_set;
mod record;
mod record_set;
mod refusal;
mod size;
mod size_or_one;
mod state_record;

pub use draft::Draft;
pub use edge::{Edge, Step};
pub use model::Model;
pub use number_set::NumberSet;
pub use record::Record;
pub use record_set::RecordSet;
pub use refusal::Refusal;
pub use size::Size;
pub use size_or_one::SizeOrOne;
pub use state_record::StateRecord;
