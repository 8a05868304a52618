// Whether an until language has a word: which symbols derive which stretches of it.
#![tactic(auto)]

mod asking;
mod empty_word;
mod filling;

pub use asking::derives;
