// A shortest path, written out from the entries of a table.
// Table and language stand apart: a struct of both would be made anew for each call, since the search has the table to
// itself.
ghost use Rattle.std.specs.Prelude.{◌≡◌, ℕ, ◌+◌, ◌<◌, ◌≤◌, List, ◌++◌, length, take, drop, MatchOption};
ghost use Rattle.model.specs.Relations.{Among};
ghost use Rattle.model.specs.Sets.{Has};
ghost use Rattle.language.specs.declared.rule.Rule.{Rule as RuleOf};
ghost use Rattle.language.specs.Rules.{head_of, SymbolsBelow};
ghost use Rattle.language.specs.Derivations.{Derives};
ghost use Rattle.logic.specs.Paths.{word as word_of};
ghost use Rattle.logic.specs.Facts.{Guarded};
ghost use Rattle.least.specs.Entries.{ground_of, triple, Known, Sound, Closed};
ghost use Rattle.pile.specs.Items.{items, room};
ghost use Rattle.path.specs.Unfolding.{Splits, laid, wrote, parts, stepped};
ghost use Rattle.path.specs.Reaching.{NoShorter};

use crate::reaching::reach;
use crate::shrinking::shrink;
use crate::span::Span;
use crate::split::Split;
use language::{Fitting, Rule, UntilLanguage};
use least::{Fact, Table};
use model::{NumberSet, Step};
use pile::Pile;

// A way by the rule to the fact of its head from facts with fewer steps, if its head is in the mask.
fn shrink_in(table: &Table, rule: Rule, span: Span, mask: NumberSet) -> Option<Split>
    requires within { SymbolsBelow table.now.scope.symbols rule }
    requires from { span.from < table.now.scope.states }
    requires to { span.to < table.now.scope.states }
    requires some { 1 < span.worth }
    requires worth { span.worth < 5000 }
    ensures { MatchOption result (NoShorter table.now span.from span.to span.worth mask rule) (λ found. Has mask (head_of rule) × ((rules : List RuleOf) (n : ℕ) → Among rule rules → Sound rules table.now → span.worth ≡ n + 1 → Splits rules table.now (record { symbol = head_of rule; from = span.from; to = span.to }) n found)) }
{
    if !mask.has(rule.head()) {
        return None;
    }
    shrink(table, rule, span)
}

// How the fact comes from facts with fewer steps.
fn split<L: UntilLanguage>(table: &Table, language: &Fitting<L>, fact: Fact) -> Split
    requires symbols { table.now.scope.symbols ≡ L.symbols language.now }
    requires sound { Sound (L.rules language.now) table.now }
    requires known { (n : ℕ) × (top : ℕ) × (0 < n) × (n < top) × (n < 4097) × Closed (L.rules language.now) top table.now × Known table.now (triple fact) n }
    ensures { (n : ℕ) → Known table.now (triple fact) n → Splits (L.rules language.now) table.now fact n result }
{
    let worth = table.entry(fact);
    let mask = reach(table, language, fact, worth);
    let span = Span {
        from: fact.from,
        to: fact.to,
        worth,
    };
    // a loop: with `find_map` each call is allowed, but two facts about the calls of its closure, of which its clause `runs`
    // speaks, did not close: that a call leaves the closure as it was, and that it gave what `shrink_in` ensures
    for rule in language.rules() {
        if let Some(found) = shrink_in(table, rule, span, mask) {
            return found;
        }
    }
    unreachable()
}

// Writes the step of the split, if it has one, and lays its facts on the pile; gives the number of steps written. The steps
// are no pile, which would not say that the places after the path stay as they were.
fn advance(
    found: Split,
    fact: Fact,
    pile: &mut Pile<Fact>,
    steps: &mut [Step],
    written: usize,
) -> usize
    requires room { length (items pile.old) + laid found ≤ room pile.old }
    requires steps { written + wrote found ≤ length steps.old }
    ensures items { items pile.new ≡ items pile.old ++ parts fact found }
    ensures room { room pile.new ≡ room pile.old }
    ensures steps { steps.new ≡ stepped found steps.old written }
    ensures written { result ≡ written + wrote found }
{
    match found {
        Split::Last { action, to } => {
            steps[written] = Step { action, state: to };
            written + 1
        }
        Split::Onward { action, to, rest } => {
            steps[written] = Step { action, state: to };
            let _ = pile.push(Fact {
                symbol: rest,
                from: to,
                to: fact.to,
            });
            written + 1
        }
        Split::Both {
            left,
            through,
            right,
        } => {
            let _ = pile.push(Fact {
                symbol: right,
                from: through,
                to: fact.to,
            });
            let _ = pile.push(Fact {
                symbol: left,
                from: fact.from,
                to: through,
            });
            written
        }
    }
}

// Writes out a path of `count` steps behind the fact, whose entry says so many.
pub(crate) fn unfold<L: UntilLanguage>(
    table: &Table,
    language: &Fitting<L>,
    waiting: &mut [Fact],
    steps: &mut [Step],
    fact: Fact,
    count: usize,
)
    requires symbols { table.now.scope.symbols ≡ L.symbols language.now }
    requires steps { count ≤ length steps.old }
    requires waiting { count ≤ length waiting.old }
    requires few { count < 4097 }
    requires sound { Sound (L.rules language.now) table.now }
    requires known { (top : ℕ) × (count < top) × Closed (L.rules language.now) top table.now × Known table.now (triple fact) count }
    ensures guarded { Guarded (ground_of table.now.scope) fact.from (take count steps.new) fact.to }
    ensures derived { Derives (L.rules language.now) fact.symbol (word_of (ground_of table.now.scope).model (take count steps.new)) }
    ensures others { drop count steps.new ≡ drop count steps.old }
{
    if count == 0 {
        return;
    }
    let mut pile = Pile::over(waiting);
    let _ = pile.push(fact);
    let mut written = 0usize;
    while let Some(next) = pile.pop() {
        let found = split(table, language, next);
        written = advance(found, next, &mut pile, steps, written);
    }
}
