// Lowering by all rules. A rule does not know the scope: that its symbols are of it is asked of each turn.
ghost use Rattle.std.specs.Prelude.{ℕ, ◌<◌};
ghost use Rattle.language.specs.Rules.{SymbolsBelow, RulesWithin};
ghost use Rattle.least.specs.Bands.{low_of, high_of};
ghost use Rattle.least.specs.Entries.{triple, In};
ghost use Rattle.least.specs.Lowering.{Always, Run, ShutIn, ShutRule, ShutAll, ShutStarts};

use crate::band::Band;
use crate::fact::Fact;
use crate::table::Table;
use crate::table::leading::Leading;
use language::{Rule, Rules, UntilLanguage};

impl Table<'_> {
    // Lowers by the rule with the fact as a part, if its entry lies in the band.
    fn expand_in(&mut self, top: u16, band: Band, rule: Rule, fact: Fact) -> bool
        requires within { SymbolsBelow self.old.scope.symbols rule }
        requires fact { In self.old.scope (triple fact) }
        ensures { Always rule (ShutIn top (low_of band) (high_of band) rule (triple fact)) self.old self.new result }
    {
        let known = self.entry(fact);
        if !band.has(known) {
            return false;
        }
        self.expand(top, band, fact, rule)
    }

    // Lowers by the rule with the facts of the symbol from the state as a part.
    fn sweep_row(&mut self, top: u16, band: Band, rule: Rule, symbol: u8, from: u8) -> bool
        requires within { SymbolsBelow self.old.scope.symbols rule }
        requires symbol { symbol < self.old.scope.symbols }
        requires from { from < self.old.scope.states }
        ensures { Always rule (λ w. (t : ℕ) → t < w.scope.states → ShutIn top (low_of band) (high_of band) rule (symbol, from, t) w) self.old self.new result }
    {
        let mut fell = false;
        for to in 0..self.states() {
            fell |= self.expand_in(top, band, rule, Fact { symbol, from, to });
        }
        fell
    }

    // Lowers by the rule with the facts of the symbol as a part.
    fn sweep_part(&mut self, top: u16, band: Band, rule: Rule, symbol: u8) -> bool
        requires within { SymbolsBelow self.old.scope.symbols rule }
        requires symbol { symbol < self.old.scope.symbols }
        ensures { Always rule (λ w. (s : ℕ) → s < w.scope.states → (t : ℕ) → t < w.scope.states → ShutIn top (low_of band) (high_of band) rule (symbol, s, t) w) self.old self.new result }
    {
        let mut fell = false;
        for from in 0..self.states() {
            fell |= self.sweep_row(top, band, rule, symbol, from);
        }
        fell
    }

    // Lowers by the rule with all facts that have an entry in the band.
    fn sweep_rule(&mut self, top: u16, band: Band, rule: Rule) -> bool
        requires { SymbolsBelow self.old.scope.symbols rule }
        ensures { Always rule (ShutRule top (low_of band) (high_of band) rule) self.old self.new result }
    {
        match rule {
            Rule::Lead { head, action, rest } => {
                self.sweep_lead(top, band, Leading { head, action, rest })
            }
            Rule::Same { body, .. } => self.sweep_part(top, band, rule, body),
            Rule::Pair { left, right, .. } => {
                let first = self.sweep_part(top, band, rule, left);
                if !band.takes_seconds() || left == right {
                    return first;
                }
                let second = self.sweep_part(top, band, rule, right);
                first | second
            }
            Rule::Empty { .. } | Rule::Letter { .. } => false,
        }
    }

    // Lowers by the rules with the facts that have an entry in the band. `start` has the same loop round another call, as
    // rows and edges have theirs. Tried as one: after a `fold` nothing is known of the table that its closure lowered; a
    // function with the turn as a closure has to say for each property of a rule what holds of the table then, and a clause
    // over all properties is refused (it is of `Type 1`); with a list of its calls instead it is longer than the two loops.
    pub fn sweep<L: UntilLanguage>(&mut self, rules: Rules<L>, top: u16, band: Band) -> bool
        requires { RulesWithin self.old.scope.symbols rules }
        ensures { Run rules.entry (ShutAll rules.entry top (low_of band) (high_of band)) self.old self.new result }
    {
        let mut fell = false;
        for rule in rules {
            fell |= self.sweep_rule(top, band, rule);
        }
        fell
    }

    // Lowers by those of the rules that have no part.
    pub fn start<L: UntilLanguage>(&mut self, rules: Rules<L>, top: u16) -> bool
        requires { RulesWithin self.old.scope.symbols rules }
        ensures { Run rules.entry (ShutStarts rules.entry top) self.old self.new result }
    {
        let mut fell = false;
        for rule in rules {
            fell |= self.start_rule(top, rule);
        }
        fell
    }
}
