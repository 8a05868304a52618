// A language by its rules.
ghost use Rattle.std.specs.Prelude.{◌≤◌};
ghost use Rattle.kinds.specs.Rows.{AllFit};

use language::Rule;
use model::RecordSet;

// Its words are those that they derive from symbol 0.
// The numbers of symbols and actions stand as numbers with their facts: a size in a field would put a step
// between each clause and the number that it speaks of, and one that is seen as its number would hide its range.
#[derive(Drop)]
pub struct Grammar {
    symbols: u8,
    actions: u8,
    rules: RecordSet<Rule, 128>,
    ghost some_symbol: { 1 ≤ symbols },
    ghost few_symbols: { symbols ≤ 16 },
    ghost some_action: { 1 ≤ actions },
    ghost few_actions: { actions ≤ 16 },
    ghost inside: { AllFit symbols actions rules.records.items },
}

mod telling;
mod writing;
