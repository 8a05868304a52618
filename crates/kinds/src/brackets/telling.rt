// What brackets tell: symbol 0 gives the balanced words, symbol 1 those with one down too many, symbol 2 a down and then
// a balanced word.
ghost use Rattle.kinds.specs.BracketWords.{BracketWords, told};
ghost use Rattle.std.proofs.Common.{arith};
ghost use Rattle.std.specs.Prelude.{◌<◌};
ghost use Rattle.language.specs.Rules.{SymbolsBelow, ActionsBelow};
ghost use Rattle.kinds.specs.Nesting.{told_each, complete_all, sound_all};

use crate::brackets::Brackets;
use crate::marks::{marked_at, marked_count};
use language::{Alphabet, Rule, UntilLanguage};

impl Alphabet for Brackets {
    ghost known = { λ b. b.actions };

    ghost some_action = { λ b. omega (arith, b.up_known) };

    ghost few_actions = { λ b. b.few_actions };

    fn action_count(&self) -> u8 {
        self.actions
    }
}

impl UntilLanguage for Brackets {
    ghost words = { BracketWords };

    ghost symbols = { λ _. 3 };

    ghost rules = { told };

    ghost some_symbol = { λ b few short. omega arith };

    ghost symbols_known = { λ b few short.
        let zero_one : 0 < 3 = omega arith in let one : 1 < 3 = omega arith in let two : 2 < 3 = omega arith in
        told_each b (SymbolsBelow 3) zero_one (zero_one, one) (one, zero_one, two) (two, zero_one) (λ a l nu nd. (zero_one, zero_one)) };

    ghost actions_known = { λ b few short. told_each b (ActionsBelow b.actions) tt b.up_known tt b.down_known (λ a l nu nd. l) };

    ghost derived = { λ b w few short m. complete_all b w m };

    ghost only_derived = { λ b w few short d. sound_all b w d };

    fn symbol_count(&self) -> usize {
        3
    }

    fn rule_count(&self) -> usize {
        let others = self.others();
        4 + marked_count(&others, self.actions)
    }

    fn rule(&self, place: usize) -> Option<Rule> {
        match place {
            0 => Some(Rule::Empty { head: 0 }),
            1 => Some(Rule::Lead {
                head: 0,
                action: self.up,
                rest: 1,
            }),
            2 => Some(Rule::Pair {
                head: 1,
                left: 0,
                right: 2,
            }),
            3 => Some(Rule::Lead {
                head: 2,
                action: self.down,
                rest: 0,
            }),
            _ => {
                let others = self.others();
                let action = marked_at(&others, self.actions, place - 4)?;
                Some(Rule::Lead {
                    head: 0,
                    action,
                    rest: 0,
                })
            }
        }
    }
}
