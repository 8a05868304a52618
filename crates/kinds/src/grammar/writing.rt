// How a grammar is written. `new`, `bare` and `size` are the one line or two of automata and table watchers, on another
// type: a shared one would need a trait with a member for each of these lines.
ghost use Rattle.std.specs.Prelude.{◌≡◌, Decides, MatchResult};
ghost use Rattle.model.specs.Refusals.{refusal};
ghost use Rattle.model.specs.Relations.{Among};
ghost use Rattle.kinds.specs.Grammars.{rules_of, NoRules, AfterRule, CauseSize, CauseRule};

use crate::grammar::Grammar;
use crate::rules::{actions_below, symbols_below};
use language::Rule;
use model::{RecordSet, Refusal, SizeOrOne};

impl Grammar {
    // One symbol, one action and no rule.
    pub fn new() -> Grammar
        ensures { NoRules 1 1 result }
    {
        Grammar::bare(SizeOrOne::one(), SizeOrOne::one())
    }

    // No rule.
    fn bare(symbols: SizeOrOne<16>, actions: SizeOrOne<16>) -> Grammar
        ensures { NoRules symbols.count actions.count result }
    {
        Grammar {
            symbols: symbols.get(),
            actions: actions.get(),
            rules: RecordSet::new(),
        }
    }

    // Sets the numbers of symbols and actions, and removes all rules.
    pub fn size(&mut self, symbols: u8, actions: u8) -> Result<(), Refusal>
        ensures cause { CauseSize symbols actions (refusal result) }
        ensures after { MatchResult result (λ _. NoRules symbols actions self.new) (λ _. self.new ≡ self.old) }
    {
        *self = Grammar::bare(symbols.try_into()?, actions.try_into()?);
        Ok(())
    }

    // The rules, in the order in which they were added.
    pub fn rules(&self) -> &[Rule]
        ensures { result.now ≡ rules_of self.now }
    {
        self.rules.as_slice()
    }

    // Whether the rule is there.
    pub fn has_rule(&self, rule: Rule) -> bool
        ensures { Decides result (Among rule (rules_of self.now)) }
    {
        self.rules.contains(&rule)
    }

    // Adds a rule; one that is there already stays as it is.
    pub fn add_rule(&mut self, rule: Rule) -> Result<(), Refusal>
        ensures cause { CauseRule self.old rule (refusal result) }
        ensures after { MatchResult result (λ _. AfterRule self.old self.new rule) (λ _. self.new ≡ self.old) }
    {
        if !actions_below(rule, self.actions) {
            return Err(Refusal::NoSuchAction);
        }
        if !symbols_below(rule, self.symbols) {
            return Err(Refusal::NoSuchSymbol);
        }
        self.rules.add(rule)
    }
}
