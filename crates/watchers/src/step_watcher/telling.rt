// What a step watcher tells.
ghost use Rattle.watchers.specs.Steps.{StepWords, step_table};
ghost use Rattle.std.proofs.Common.{◌∙◌, sym};
ghost use Rattle.watchers.specs.StepTellingLemmas.{whole, counted_all};
ghost use Rattle.std.proofs.lemmas.Bool.{eq-eqb, eqb-true};
ghost use Rattle.language.specs.Tables.{run};
ghost use Rattle.watchers.specs.Lost.{marked_known};

use crate::step_watcher::StepWatcher;
use language::{Alphabet, Watcher};

impl Alphabet for StepWatcher {
    ghost known = { λ s. s.actions };

    ghost some_action = { λ w. w.some_action };

    ghost few_actions = { λ w. w.few_actions };

    fn action_count(&self) -> u8 {
        self.actions
    }
}

impl Watcher for StepWatcher {
    ghost words = { StepWords };

    ghost table = { step_table };

    ghost complete = { λ s few. whole s };

    ghost accepted = { λ s w few m. eq-eqb (run (step_table s) 0 w) s.remainder (counted_all s w m.0 ∙ m.1) };

    ghost only_accepted = { λ s w few m.
        let k = marked_known s.actions (step_table s) (whole s) 0 w m in
        (k, sym (counted_all s w k) ∙ eqb-true (run (step_table s) 0 w) s.remainder m) };

    fn state_count(&self) -> usize {
        self.modulus as usize
    }

    fn start(&self) -> u8 {
        0
    }

    fn next(&self, state: u8, action: u8) -> Option<u8> {
        if state < self.modulus && action < self.actions {
            Some((state + 1) % self.modulus)
        } else {
            None
        }
    }

    fn is_marked(&self, state: u8) -> bool {
        state == self.remainder
    }
}
