// What a table of step counts is about.
ghost use Rattle.std.specs.Prelude.{◌≡◌, ◌≤◌};

use logic::GuardedModel;

// A model with a guard, and how many symbols there are; `states` is the model's number of states, kept beside it since each
// access of an entry needs it. Both are numbers of their own, and no `Layout`, since the clauses of a table speak of each.
#[derive(Drop)]
pub struct Scope<'a> {
    ground: &'a GuardedModel<'a>,
    symbols: u8,
    states: u8,
    ghost few_symbols: { symbols ≤ 16 },
    ghost its_states: { states ≡ ground.now.model.states },
}

mod methods;
