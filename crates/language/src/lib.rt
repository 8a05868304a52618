// What a language is: the rules of an until language, the table of a watcher, and the traits that code is generic over.
#![tactic(auto)]

mod alphabet;
mod fitting;
mod rule;
mod rules;
mod until_language;
mod watcher;
mod watcher_limit;

pub use alphabet::Alphabet;
pub use fitting::Fitting;
pub use rule::Rule;
pub use rules::Rules;
pub use until_language::UntilLanguage;
pub use watcher::Watcher;
pub use watcher_limit::check_states;
