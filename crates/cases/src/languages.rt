// The languages that the cases are about.
ghost use Rattle.std.specs.Prelude.{false, [], None as NoState};
ghost use Rattle.std.proofs.Common.{arith};

use kinds::{Automaton, Grammar};
use language::{Alphabet, Rule, UntilLanguage, Watcher};
use model::Refusal;

fn letter(head: u8, action: u8) -> Rule {
    Rule::Letter { head, action }
}

fn lead(head: u8, action: u8, rest: u8) -> Rule {
    Rule::Lead { head, action, rest }
}

fn same(head: u8, body: u8) -> Rule {
    Rule::Same { head, body }
}

fn pair(head: u8, left: u8, right: u8) -> Rule {
    Rule::Pair { head, left, right }
}

// Adds each of the rules.
fn add_all(grammar: &mut Grammar, rules: &[Rule]) -> Result<(), Refusal> {
    for rule in rules {
        grammar.add_rule(*rule)?;
    }
    Ok(())
}

// A grammar of these rules.
fn grammar(symbols: u8, actions: u8, rules: &[Rule]) -> Result<Grammar, Refusal> {
    let mut grammar = Grammar::new();
    grammar.size(symbols, actions)?;
    add_all(&mut grammar, rules)?;
    Ok(grammar)
}

// Action 0 some times, and then action 1 as many times.
pub fn ab() -> Result<Grammar, Refusal> {
    let rules = [lead(0, 0, 1), pair(1, 0, 2), letter(1, 1), letter(2, 1)];
    grammar(3, 2, &rules)
}

// The empty word alone.
pub fn nothing_said() -> Result<Automaton, Refusal> {
    let mut automaton = Automaton::new();
    automaton.size(1, 2)?;
    automaton.set_final(0)?;
    Ok(automaton)
}

// One word of 2^doublings letters: each symbol is twice the next.
pub fn doubling(doublings: u8, first: u8) -> Result<Grammar, Refusal> {
    let last = first.saturating_add(doublings);
    let mut grammar = Grammar::new();
    grammar.size(last.saturating_add(1), 1)?;
    for head in first..last {
        let next = head.saturating_add(1);
        grammar.add_rule(pair(head, next, next))?;
    }
    grammar.add_rule(letter(last, 0))?;
    if first > 0 {
        grammar.add_rule(lead(0, 0, 1))?;
    }
    Ok(grammar)
}

// Words of action 0 in any number, by rules that go in circles: same rules in a ring, and pairs with an empty part.
pub fn circles() -> Result<Grammar, Refusal> {
    let rules = [
        same(0, 1),
        same(1, 2),
        same(2, 0),
        pair(1, 1, 3),
        pair(2, 3, 2),
        Rule::Empty { head: 3 },
        lead(2, 0, 0),
        letter(2, 1),
    ];
    grammar(4, 2, &rules)
}

// The empty word alone, by rules that go in circles.
pub fn empty_circles() -> Result<Grammar, Refusal> {
    let rules = [
        pair(0, 0, 1),
        pair(0, 1, 0),
        same(0, 1),
        same(1, 0),
        Rule::Empty { head: 1 },
    ];
    grammar(2, 2, &rules)
}

// As large as a grammar can be: 16 symbols, 8 rules for each.
pub fn crowded() -> Result<Grammar, Refusal> {
    let mut grammar = Grammar::new();
    grammar.size(16, 8)?;
    for head in 0..16 {
        let rules = [
            letter(head, head % 8),
            lead(head, (head + 1) % 8, (head + 3) % 16),
            lead(head, (head + 5) % 8, (head + 7) % 16),
            lead(head, (head + 3) % 8, (head + 13) % 16),
            same(head, (head + 1) % 16),
            pair(head, (head + 2) % 16, (head + 5) % 16),
            pair(head, (head + 9) % 16, (head + 4) % 16),
            pair(head, (head + 11) % 16, head),
        ];
        add_all(&mut grammar, &rules)?;
    }
    Ok(grammar)
}

// A language of 17 symbols and a watcher of 33 states, which every call refuses.
// The program `words` has a language like it: a crate for both, with an edit for each function, would be longer than what
// stands twice.
#[derive(Clone, Copy)]
pub struct Oversized;

impl Alphabet for Oversized {
    ghost known = { λ _. 2 };

    ghost some_action = { λ _. omega arith };

    ghost few_actions = { λ _. omega arith };

    fn action_count(&self) -> u8 {
        2
    }
}

impl UntilLanguage for Oversized {
    ghost words = { λ _ _. Unit {0} };

    ghost symbols = { λ _. 17 };

    ghost rules = { λ _. [] };

    ghost some_symbol = { λ l few short. absurd (omega arith) };

    ghost symbols_known = { λ l few short. absurd (omega arith) };

    ghost actions_known = { λ l few short. absurd (omega arith) };

    ghost derived = { λ l w few short given. absurd (omega arith) };

    ghost only_derived = { λ l w few short given. absurd (omega arith) };

    fn symbol_count(&self) -> usize {
        17
    }

    fn rule_count(&self) -> usize {
        0
    }

    fn rule(&self, place: usize) -> Option<Rule> {
        None
    }
}

impl Watcher for Oversized {
    ghost words = { λ _ _. Unit {0} };

    ghost table = { λ _. record { states = 33; start = 0; next = λ _ _. NoState; marked = λ _. false } };

    ghost complete = { λ l few. absurd (omega arith) };

    ghost accepted = { λ l w few given. absurd (omega arith) };

    ghost only_accepted = { λ l w few given. absurd (omega arith) };

    fn state_count(&self) -> usize {
        33
    }

    fn start(&self) -> u8 {
        0
    }

    fn next(&self, state: u8, action: u8) -> Option<u8> {
        None
    }

    fn is_marked(&self, state: u8) -> bool {
        false
    }
}
