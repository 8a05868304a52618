// Rules that keep the number of steps can go in circles: they are walked as a set of symbols.
// Table and language stand apart: a struct of both would be made anew for each call, since the search has the table to
// itself. A rule does not know the table: that its symbols are of its scope is asked of each step, here and in `shrinking`.
ghost use Rattle.std.specs.Prelude.{◌≡◌, ◌<◌};
ghost use Rattle.model.specs.Relations.{Exactly, Joined};
ghost use Rattle.model.specs.Sets.{Has};
ghost use Rattle.language.specs.Rules.{head_of, SymbolsBelow, RulesWithin, BySome};
ghost use Rattle.least.specs.Entries.{triple, entry_of, In, Sound};
ghost use Rattle.path.specs.Reaching.{Keeps, Reached, ReachShut};

use crate::span::Span;
use language::{Fitting, Rule, UntilLanguage};
use least::{Fact, Table};
use model::NumberSet;

// The symbol of the fact `rest`, if its entry is this one and that of `empty` is the one of no steps.
fn kept(table: &Table, empty: Fact, rest: Fact, worth: u32) -> NumberSet
    requires empty { In table.now.scope (triple empty) }
    requires rest { In table.now.scope (triple rest) }
    ensures { Exactly (Has result) (λ y. (y ≡ rest.symbol) × (entry_of table.now (triple empty) ≡ 1) × (entry_of table.now (triple rest) ≡ worth)) }
{
    if table.entry(empty) == 1 && table.entry(rest) == worth {
        return NumberSet::single(rest.symbol);
    }
    NumberSet::empty()
}

// The symbols from whose facts the rule makes one of its head with the same entry.
fn keeps(table: &Table, rule: Rule, span: Span) -> NumberSet
    requires within { SymbolsBelow table.now.scope.symbols rule }
    requires from { span.from < table.now.scope.states }
    requires to { span.to < table.now.scope.states }
    ensures { Exactly (Has result) (Keeps table.now span.from span.to span.worth rule) }
{
    let Span { from, to, worth } = span;
    let part = |symbol, from, to| Fact { symbol, from, to };
    match rule {
        Rule::Same { body, .. } => {
            if table.entry(part(body, from, to)) != worth {
                return NumberSet::empty();
            }
            NumberSet::single(body)
        }
        Rule::Pair { left, right, .. } => {
            let second = kept(table, part(left, from, from), part(right, from, to), worth);
            second.union(kept(table, part(right, to, to), part(left, from, to), worth))
        }
        Rule::Empty { .. } | Rule::Letter { .. } | Rule::Lead { .. } => NumberSet::empty(),
    }
}

// The symbols that the rule brings, if its head is in the mask.
fn reach_by(table: &Table, rule: Rule, span: Span, mask: NumberSet) -> NumberSet
    requires within { SymbolsBelow table.now.scope.symbols rule }
    requires from { span.from < table.now.scope.states }
    requires to { span.to < table.now.scope.states }
    ensures { Exactly (Has result) (λ y. Has mask (head_of rule) × Keeps table.now span.from span.to span.worth rule y) }
{
    if !mask.has(rule.head()) {
        return NumberSet::empty();
    }
    keeps(table, rule, span)
}

// The mask with the symbols that the rules bring.
fn reach_once<L: UntilLanguage>(
    table: &Table,
    language: &Fitting<L>,
    span: Span,
    mask: NumberSet,
) -> NumberSet
    requires symbols { table.now.scope.symbols ≡ L.symbols language.now }
    requires from { span.from < table.now.scope.states }
    requires to { span.to < table.now.scope.states }
    ensures joined { Joined (Has mask) (Has result) (BySome (λ x y. Has mask (head_of x) × Keeps table.now span.from span.to span.worth x y) (L.rules language.now)) }
    ensures within { RulesWithin table.now.scope.symbols (L.rules language.now) }
{
    let mut more = mask;
    for rule in language.rules() {
        more = more.union(reach_by(table, rule, span, mask));
    }
    more
}

// All symbols that the rules bring from that of the fact, whose entry is `worth`.
pub(crate) fn reach<L: UntilLanguage>(
    table: &Table,
    language: &Fitting<L>,
    fact: Fact,
    worth: u32,
) -> NumberSet
    requires symbols { table.now.scope.symbols ≡ L.symbols language.now }
    requires there { In table.now.scope (triple fact) }
    requires entry { entry_of table.now (triple fact) ≡ worth }
    requires sound { Sound (L.rules language.now) table.now }
    ensures reached { Reached (L.rules language.now) table.now fact.from fact.to worth fact.symbol result }
    ensures shut { ReachShut (L.rules language.now) table.now fact.from fact.to worth result }
{
    let span = Span {
        from: fact.from,
        to: fact.to,
        worth,
    };
    let mut mask = NumberSet::single(fact.symbol);
    // a loop, as in `fill` of `chart`: tried as one function with a closure for the round, whose contract (rounds only add,
    // rounds led from the first set to the result, one more adds nothing) and trait for both kinds of set are longer
    loop {
        let more = reach_once(table, language, span, mask);
        // by counts: that they grow is what ends the loop
        if more.count() == mask.count() {
            return mask;
        }
        mask = more;
    }
}
