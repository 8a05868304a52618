ghost use Rattle.std.specs.Prelude.{◌≡◌, ℕ, ◌≤◌, List, length};
ghost use Rattle.std.specs.List.{slice_get};
ghost use Rattle.language.specs.Words.{Word};
ghost use Rattle.language.specs.Rules.{RulesWithin, LettersWithin};
ghost use Rattle.language.specs.Derivations.{Derives};
ghost use Rattle.language.specs.declared.rule.Rule.{Rule as RuleOf};

use crate::alphabet::Alphabet;
use crate::rule::Rule;

// A set of words, told by rules over symbols: a word is in the set where the rules derive it from symbol 0.
// With more than 16 symbols or 128 rules none of the laws is owed, and calls refuse the language.
pub trait UntilLanguage: Alphabet {
    ghost words: { Self → Word → Type 0 };

    ghost symbols: { Self → ℕ };

    ghost rules: { Self → List RuleOf };

    // How many symbols there are.
    fn symbol_count(&self) -> usize
        ensures { result ≡ symbols self.now };

    // How many rules there are.
    fn rule_count(&self) -> usize
        ensures { result ≡ length (rules self.now) };

    // The rule at a place; none past the end.
    fn rule(&self, place: usize) -> Option<Rule>
        ensures { result ≡ slice_get (rules self.now) place };

    ghost some_symbol: { (l : Self) → symbols l ≤ 16 → length (rules l) ≤ 128 → 1 ≤ symbols l };

    ghost symbols_known: { (l : Self) → symbols l ≤ 16 → length (rules l) ≤ 128 → RulesWithin (symbols l) (rules l) };

    ghost actions_known: { (l : Self) → symbols l ≤ 16 → length (rules l) ≤ 128 → LettersWithin (Self.Alphabet.known l) (rules l) };

    ghost derived: { (l : Self) (w : Word) → symbols l ≤ 16 → length (rules l) ≤ 128 → words l w → Derives (rules l) 0 w };

    ghost only_derived: { (l : Self) (w : Word) → symbols l ≤ 16 → length (rules l) ≤ 128 → Derives (rules l) 0 w → words l w };
}
