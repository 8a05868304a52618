// Three until languages: a grammar, an automaton and brackets.
#![tactic(auto)]

mod automaton;
mod brackets;
mod grammar;
mod marks;
mod rules;

pub use automaton::Automaton;
pub use brackets::Brackets;
pub use grammar::Grammar;
pub use rules::{actions_below, symbols_below};
