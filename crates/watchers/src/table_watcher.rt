// A watcher whose table is stored.
ghost use Rattle.std.specs.Prelude.{◌≡◌, ℕ, ◌<◌, ◌≤◌, [], length, slice_index, slice_index_or};

// The state after state q and action a stands at place a of row q of `nexts`.
// The numbers of states and actions stand as numbers with their facts: a size in a field would put a step
// between each clause and the number that it speaks of, and one that is seen as its number would hide its range.
// The marks are flags by number, and no set: a table tells them as flags (`Table.marked`), and each law would turn
// membership, which is a fact, into a flag. A row of a type of its own, with steps and mark, would be written by two
// methods with a frame each.
#[derive(Drop)]
pub struct TableWatcher {
    states: u8,
    actions: u8,
    nexts: [[u8; 16]; 32],
    marks: [bool; 32],
    ghost some_state: { 1 ≤ states },
    ghost few_states: { states ≤ 32 },
    ghost some_action: { 1 ≤ actions },
    ghost few_actions: { actions ≤ 16 },
    ghost all_nexts: { length nexts ≡ 32 },
    ghost all_actions: { (q : ℕ) → q < 32 → length (slice_index_or nexts q []) ≡ 16 },
    ghost all_marks: { length marks ≡ 32 },
    ghost inside: { (q a : ℕ) → slice_index (slice_index_or nexts q []) a < states },
}

mod telling;
mod writing;
