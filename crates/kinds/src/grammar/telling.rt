// What a grammar tells.
ghost use Rattle.kinds.specs.Grammars.{rules_of, GrammarWords};
ghost use Rattle.kinds.specs.Fitting.{symbols_from, actions_from};

use crate::grammar::Grammar;
use language::{Alphabet, Rule, UntilLanguage};

impl Alphabet for Grammar {
    ghost known = { λ g. g.actions };

    ghost some_action = { λ g. g.some_action };

    ghost few_actions = { λ g. g.few_actions };

    fn action_count(&self) -> u8 {
        self.actions
    }
}

impl UntilLanguage for Grammar {
    ghost words = { GrammarWords };

    ghost symbols = { λ g. g.symbols };

    ghost rules = { rules_of };

    ghost some_symbol = { λ g few short. g.some_symbol };

    ghost symbols_known = { λ g few short r m. symbols_from g.symbols g.actions r (g.inside r m) };

    ghost actions_known = { λ g few short r m. actions_from g.symbols g.actions r (g.inside r m) };

    ghost derived = { λ g w few short m. m };

    ghost only_derived = { λ g w few short m. m };

    fn symbol_count(&self) -> usize {
        self.symbols as usize
    }

    fn rule_count(&self) -> usize {
        self.rules.len()
    }

    fn rule(&self, place: usize) -> Option<Rule> {
        self.rules.get(place)
    }
}
