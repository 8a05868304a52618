// What an automaton tells: a rule for each edge, and an empty rule for each final state.
ghost use Rattle.kinds.specs.Automata.{AutomatonWords, told};
ghost use Rattle.std.proofs.Common.{arith, inl, inr, sym, subst};
ghost use Rattle.language.specs.Rules.{SymbolsBelow, ActionsBelow};
ghost use Rattle.kinds.specs.Told.{told_cases, derives_run, run_from};
ghost use Rattle.std.specs.Prelude.{suc, length};

use crate::automaton::Automaton;
use crate::marks::{marked_at, marked_count};
use language::{Alphabet, Rule, UntilLanguage};

impl Alphabet for Automaton {
    ghost known = { λ a. a.actions };

    ghost some_action = { λ a. a.some_action };

    ghost few_actions = { λ a. a.few_actions };

    fn action_count(&self) -> u8 {
        self.actions
    }
}

impl UntilLanguage for Automaton {
    ghost words = { AutomatonWords };

    ghost symbols = { λ a. a.states };

    ghost rules = { told };

    ghost some_symbol = { λ m few short. m.some_state };

    ghost symbols_known = { λ m few short r there.
        elim (told_cases m r there) [
          | inl e ↦ let i = m.inside e.0 e.1 in subst (SymbolsBelow m.states) (sym e.2) (i.0, i.2)
          | inr q ↦ subst (SymbolsBelow m.states) (sym q.3) q.1
        ] };

    ghost actions_known = { λ m few short r there.
        elim (told_cases m r there) [
          | inl e ↦ let i = m.inside e.0 e.1 in subst (ActionsBelow m.actions) (sym e.2) i.1
          | inr q ↦ subst (ActionsBelow m.actions) (sym q.3) tt
        ] };

    ghost derived = { λ m w few short (q, runs, final). (suc (length w), derives_run m w 0 q (omega (arith, m.some_state)) runs final) };

    ghost only_derived = { λ m w few short (h, d). run_from m h 0 w d };

    fn symbol_count(&self) -> usize {
        self.states as usize
    }

    fn rule_count(&self) -> usize {
        self.edges.len() + marked_count(&self.finals, self.states)
    }

    fn rule(&self, place: usize) -> Option<Rule> {
        if let Some(edge) = self.edges.get(place) {
            return Some(Rule::Lead {
                head: edge.from,
                action: edge.action,
                rest: edge.to,
            });
        }
        let head = marked_at(&self.finals, self.states, place - self.edges.len())?;
        Some(Rule::Empty { head })
    }
}
