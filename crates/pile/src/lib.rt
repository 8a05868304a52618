// A pile of records over lent memory: last on, first off. One text for every kind of record.
#![tactic(auto)]

mod base;

pub use base::Pile;
