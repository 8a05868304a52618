// Least step counts: for each symbol and two states, the fewest steps of a guarded path between them whose word the
// symbol derives.
#![tactic(auto)]

mod band;
mod fact;
mod scope;
mod table;

pub use band::Band;
pub use fact::Fact;
pub use scope::Scope;
pub use table::Table;
