// A language by the runs of an automaton.
ghost use Rattle.std.specs.Prelude.{◌≡◌, ◌≤◌, length};
ghost use Rattle.model.specs.Edges.{AllInside};

use model::{Edge, RecordSet};

// A run starts in state 0, and its word is in the set where it ends in a final state.
// The numbers of states and actions stand as numbers with their facts: a size in a field would put a step
// between each clause and the number that it speaks of, and one that is seen as its number would hide its range.
// The final states are flags by number, and no set: what is told goes by flags (`final_at`), and each of its laws would turn
// membership, which is a fact, into a flag.
#[derive(Drop)]
pub struct Automaton {
    states: u8,
    actions: u8,
    edges: RecordSet<Edge, 64>,
    finals: [bool; 16],
    ghost some_state: { 1 ≤ states },
    ghost few_states: { states ≤ 16 },
    ghost some_action: { 1 ≤ actions },
    ghost few_actions: { actions ≤ 16 },
    ghost all_finals: { length finals ≡ 16 },
    ghost inside: { AllInside states actions edges.records.items },
}

mod telling;
mod writing;
