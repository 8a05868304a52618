// A watcher that counts steps.
ghost use Rattle.std.specs.Prelude.{◌<◌, ◌≤◌};

// Its words are those whose length leaves `remainder` when it is divided by `modulus`.
// The modulus and the number of actions stand as numbers with their facts: a size in a field would put a step
// between each clause and the number that it speaks of, and one that is seen as its number would hide its range.
#[derive(Clone, Copy)]
pub struct StepWatcher {
    modulus: u8,
    remainder: u8,
    actions: u8,
    ghost some_modulus: { 1 ≤ modulus },
    ghost few_states: { modulus ≤ 32 },
    ghost below_modulus: { remainder < modulus },
    ghost some_action: { 1 ≤ actions },
    ghost few_actions: { actions ≤ 16 },
}

mod making;
mod telling;
