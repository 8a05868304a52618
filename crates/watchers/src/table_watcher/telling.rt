// What a table watcher tells.
ghost use Rattle.watchers.specs.TableWatchers.{TableWords, stored_table, mark_of, reached};
ghost use Rattle.std.proofs.Common.{arith, sym, subst};
ghost use Rattle.watchers.specs.TableTellingLemmas.{whole, alike};
ghost use Rattle.std.specs.Prelude.{◌≡◌, true, ◌&&◌, nat_lt};
ghost use Rattle.std.proofs.lemmas.Bool.{lt-ltb, and_from, and_parts};
ghost use Rattle.language.specs.Tables.{run};
ghost use Rattle.watchers.specs.Lost.{marked_known};

use crate::table_watcher::TableWatcher;
use language::{Alphabet, Watcher};

impl Alphabet for TableWatcher {
    ghost known = { λ t. t.actions };

    ghost some_action = { λ w. w.some_action };

    ghost few_actions = { λ w. w.few_actions };

    fn action_count(&self) -> u8 {
        self.actions
    }
}

impl Watcher for TableWatcher {
    ghost words = { TableWords };

    ghost table = { stored_table };

    ghost complete = { λ t few. whole t };

    ghost accepted = { λ t w few m.
        let same = alike t 0 w (omega (arith, t.some_state)) m.0 in
        subst (λ q. (nat_lt q t.states && mark_of t q) ≡ true) (sym same.0) (and_from (nat_lt (reached t 0 w) t.states) (mark_of t (reached t 0 w)) (lt-ltb (reached t 0 w) t.states same.1) m.1) };

    ghost only_accepted = { λ t w few m.
        let k = marked_known t.actions (stored_table t) (whole t) 0 w m in
        let same = alike t 0 w (omega (arith, t.some_state)) k in
        (k, subst (λ q. mark_of t q ≡ true) same.0 (and_parts (nat_lt (run (stored_table t) 0 w) t.states) (mark_of t (run (stored_table t) 0 w)) m).1) };

    fn state_count(&self) -> usize {
        self.states as usize
    }

    fn start(&self) -> u8 {
        0
    }

    fn next(&self, state: u8, action: u8) -> Option<u8> {
        if state < self.states && action < self.actions {
            Some(self.nexts[state as usize][action as usize])
        } else {
            None
        }
    }

    fn is_marked(&self, state: u8) -> bool {
        state < self.states && self.marks[state as usize]
    }
}
