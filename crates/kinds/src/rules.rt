// What a rule names.
ghost use Rattle.std.specs.Prelude.{Decides};
ghost use Rattle.language.specs.Rules.{ActionsBelow, SymbolsBelow};

use language::Rule;

// Whether the action that the rule names, if any, is below n.
pub fn actions_below(rule: Rule, n: u8) -> bool
    ensures { Decides result (ActionsBelow n rule) }
{
    match rule {
        Rule::Letter { action, .. } | Rule::Lead { action, .. } => action < n,
        Rule::Empty { .. } | Rule::Same { .. } | Rule::Pair { .. } => true,
    }
}

// Whether the symbols that the rule names are below k.
pub fn symbols_below(rule: Rule, k: u8) -> bool
    ensures { Decides result (SymbolsBelow k rule) }
{
    match rule {
        Rule::Empty { head } | Rule::Letter { head, .. } => head < k,
        Rule::Lead { head, rest, .. } => head < k && rest < k,
        Rule::Same { head, body } => head < k && body < k,
        Rule::Pair { head, left, right } => head < k && left < k && right < k,
    }
}
