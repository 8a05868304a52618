// An until language with more symbols than calls take.
ghost use Rattle.std.specs.Prelude.{[]};
ghost use Rattle.std.proofs.Common.{arith};

use language::{Alphabet, Rule, UntilLanguage};

// It has 17 symbols and no rule; no law is owed beyond 16 symbols, so calls refuse it. The program `cases` has a language
// like it: a crate for both, with an edit for each function, would be longer than what stands twice.
#[derive(Clone, Copy)]
pub struct Wide;

impl Alphabet for Wide {
    ghost known = { λ _. 1 };

    ghost some_action = { λ _. omega arith };

    ghost few_actions = { λ _. omega arith };

    fn action_count(&self) -> u8 {
        1
    }
}

impl UntilLanguage for Wide {
    ghost words = { λ _ _. Unit {0} };

    ghost symbols = { λ _. 17 };

    ghost rules = { λ _. [] };

    ghost some_symbol = { λ l few short. absurd (omega arith) };

    ghost symbols_known = { λ l few short. absurd (omega arith) };

    ghost actions_known = { λ l few short. absurd (omega arith) };

    ghost derived = { λ l w few short given. absurd (omega arith) };

    ghost only_derived = { λ l w few short given. absurd (omega arith) };

    fn symbol_count(&self) -> usize {
        17
    }

    fn rule_count(&self) -> usize {
        0
    }

    fn rule(&self, _place: usize) -> Option<Rule> {
        None
    }
}
