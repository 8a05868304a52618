// A finite labelled model.
ghost use Rattle.std.specs.Prelude.{◌≡◌, ◌≤◌, length};
ghost use Rattle.model.specs.Edges.{AllInside};

use crate::edge::Edge;
use crate::record_set::RecordSet;
use crate::state_record::StateRecord;

// States and actions are numbered from 0, and each edge is inside them.
// The numbers of states and actions stand as numbers with their facts: a size in a field would put a step
// between each clause and the number that it speaks of, and one that is seen as its number would hide its range.
// There is a record for each state that a model can have: all clauses speak of `states`, and a list of as many records would
// put its length in that place.
#[derive(Drop)]
pub struct Model {
    states: u8,
    actions: u8,
    records: [StateRecord; 32],
    edges: RecordSet<Edge, 256>,
    ghost some_state: { 1 ≤ states },
    ghost few_states: { states ≤ 32 },
    ghost some_action: { 1 ≤ actions },
    ghost few_actions: { actions ≤ 16 },
    ghost all_records: { length records ≡ 32 },
    ghost inside: { AllInside states actions edges.records.items },
}

mod labels;
mod reading;
mod writing;
