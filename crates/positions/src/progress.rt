// How far the search has looked from each position.
ghost use Rattle.std.specs.Prelude.{◌≡◌, ℕ, ◌<◌, [], length, slice_index_or};

// For each position the number of actions by which every edge from it leads to a found position.
// What is found stays found, so that no action is looked at again.
#[derive(Drop)]
pub struct Progress {
    actions: [[u8; 32]; 32],
    ghost all_watches: { length actions ≡ 32 },
    ghost all_states: { (q : ℕ) → q < 32 → length (slice_index_or actions q []) ≡ 32 },
}

mod methods;
