// What the rules give, until they give nothing new. That symbols are below 16 and words short is asked of each step: rules
// are made for languages beyond the limits too, and a type for short words would be made once and opened in each step.
ghost use Rattle.std.specs.Prelude.{◌≡◌, ◌≤◌, length, Some, Decides};
ghost use Rattle.std.specs.List.{slice_get};
ghost use Rattle.model.specs.Relations.{Joined, Exactly};
ghost use Rattle.model.specs.Sets.{Has};
ghost use Rattle.language.specs.Rules.{SymbolsBelow};
ghost use Rattle.chart.specs.Charts.{Gives, ByRule, ByRules, Stretch};
ghost use Rattle.triples.specs.Triples.{Holds};

use language::{Fitting, Rule, UntilLanguage};
use model::NumberSet;
use triples::TripleSet;

// Whether the action stands at a place of the word.
fn reads(word: &[u8], place: u8, action: u8) -> bool
    ensures { Decides result (slice_get word.now place ≡ Some action) }
{
    word.get(place as usize).copied() == Some(action)
}

// The places at which a stretch from `from` ends that the rule gives its head, from what the chart has.
fn given(chart: &TripleSet, rule: Rule, word: &[u8], from: u8) -> NumberSet
    requires symbols { SymbolsBelow 16 rule }
    requires short { length word.now ≤ 31 }
    requires inside { from ≤ length word.now }
    ensures { Exactly (Has result) (Gives word.now rule (Holds chart.now.rows) from) }
{
    match rule {
        Rule::Empty { .. } => NumberSet::single(from),
        Rule::Letter { action, .. } if reads(word, from, action) => NumberSet::single(from + 1),
        Rule::Lead { action, rest, .. } if reads(word, from, action) => chart.row(rest, from + 1),
        Rule::Letter { .. } | Rule::Lead { .. } => NumberSet::empty(),
        Rule::Same { body, .. } => chart.row(body, from),
        Rule::Pair { left, right, .. } => {
            chart.through(NumberSet::empty(), chart.row(left, from), right)
        }
    }
}

// Adds what the rule gives from what the chart has.
fn add_rule(next: &mut TripleSet, chart: &TripleSet, rule: Rule, word: &[u8])
    requires symbols { SymbolsBelow 16 rule }
    requires short { length word.now ≤ 31 }
    ensures { Joined (Holds next.old.rows) (Holds next.new.rows) (ByRule word.now rule (Holds chart.now.rows)) }
{
    let end = word.len() as u8;
    for from in 0..end + 1 {
        let more = given(chart, rule, word, from);
        next.add(rule.head(), from, more);
    }
}

// What the chart has, with what each rule gives from it.
fn round<L: UntilLanguage>(language: &Fitting<L>, word: &[u8], chart: &TripleSet) -> TripleSet
    requires { length word.now ≤ 31 }
    ensures { Joined (Holds chart.now.rows) (Holds result.rows) (ByRules word.now (L.rules language.now) (Holds chart.now.rows)) }
{
    let mut next = *chart;
    for rule in language.rules() {
        add_rule(&mut next, chart, rule, word);
    }
    next
}

// All facts about the word: round by round, until a round adds none.
pub(crate) fn fill<L: UntilLanguage>(language: &Fitting<L>, word: &[u8]) -> TripleSet
    requires { length word.now ≤ 31 }
    ensures { Exactly (Holds result.rows) (Stretch word.now (L.rules language.now)) }
{
    let mut chart = TripleSet::empty();
    // a loop, as in `reach` of `path`: tried as one function with a closure for the round, whose contract (rounds only add,
    // rounds led from the first set to the result, one more adds nothing) and trait for both kinds of set are longer
    loop {
        let next = round(language, word, &chart);
        if next.same(&chart) {
            return chart;
        }
        chart = next;
    }
}
