// A table of step counts.
ghost use Rattle.std.specs.Prelude.{◌*◌, ◌≤◌, length};

use crate::scope::Scope;

// The entries of the facts of a scope: 0 for none, and otherwise one more than the steps of a path behind the fact.
// Numbers with 0 for none, since the caller lends a table of numbers; an entry is told as it stands, since its readers
// compare it with others, and add it to others.
#[derive(Drop)]
pub struct Table<'a> {
    scope: Scope<'a>,
    entries: &'a mut [u32],
    ghost room: { scope.symbols * scope.states * scope.states ≤ length entries.now },
}

mod expanding;
mod leading;
mod lowering;
mod methods;
mod starting;
mod sweeping;
