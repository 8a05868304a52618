// A way to a fact from facts with fewer steps.
ghost use Rattle.std.specs.Prelude.{◌≡◌, ℕ, ◌+◌, ◌-◌, ◌<◌, List, Decides, MatchOption, ◌≢◌};
ghost use Rattle.model.specs.declared.edge.Edge.{Edge as EdgeOf};
ghost use Rattle.model.specs.Models.{HasEdge};
ghost use Rattle.model.specs.Relations.{Among};
ghost use Rattle.language.specs.declared.rule.Rule.{Rule as RuleOf};
ghost use Rattle.language.specs.Rules.{head_of, SymbolsBelow};
ghost use Rattle.least.specs.Walks.{GivesIn};
ghost use Rattle.least.specs.Entries.{ground_of, entry_of, In, Sound};
ghost use Rattle.path.specs.Unfolding.{StepsBy, Sums, Less, Splits};

use crate::span::Span;
use crate::split::Split;
use language::Rule;
use least::{Fact, Table};
use model::Edge;

// Whether the edge leads from one state to the other with the action, and the guard holds at the first.
fn steps_by(table: &Table, edge: Edge, action: u8, from: u8, to: u8) -> bool
    ensures { Decides result (StepsBy table.now.scope.ground.now.guard action from to edge) }
{
    edge.from == from && edge.action == action && edge.to == to && table.admits(edge.from)
}

// Whether some edge does.
fn steps_to(table: &Table, action: u8, from: u8, to: u8) -> bool
    ensures { Decides result ((e : EdgeOf) × HasEdge table.now.scope.ground.now.model e × StepsBy table.now.scope.ground.now.guard action from to e) }
{
    table
        .edges()
        .iter()
        .any(|edge| steps_by(table, *edge, action, from, to))
}

// Whether the edge leads with the action to a state from which the rest has one step less.
fn steps_on_by(table: &Table, edge: Edge, action: u8, rest: u8, span: Span) -> bool
    requires edge { HasEdge table.now.scope.ground.now.model edge }
    requires rest { In table.now.scope (rest, span.from, span.to) }
    requires worth { 1 < span.worth }
    ensures { Decides result (StepsBy table.now.scope.ground.now.guard action span.from edge.to edge × (entry_of table.now (rest, edge.to, span.to) ≡ span.worth - 1)) }
{
    let part = table.entry(Fact {
        symbol: rest,
        from: edge.to,
        to: span.to,
    });
    steps_by(table, edge, action, span.from, edge.to) && part == span.worth - 1
}

// A state to which a step with the action leads, and from which the rest has one step less.
fn steps_on(table: &Table, action: u8, rest: u8, span: Span) -> Option<u8>
    requires rest { In table.now.scope (rest, span.from, span.to) }
    requires worth { 1 < span.worth }
    ensures { MatchOption result ((e : EdgeOf) → HasEdge table.now.scope.ground.now.model e → StepsBy table.now.scope.ground.now.guard action span.from e.to e → entry_of table.now (rest, e.to, span.to) ≢ span.worth - 1) (λ via. (e : EdgeOf) × HasEdge table.now.scope.ground.now.model e × StepsBy table.now.scope.ground.now.guard action span.from via e × (entry_of table.now (rest, via, span.to) ≡ span.worth - 1)) }
{
    let edge = table
        .edges()
        .iter()
        .find(|edge| steps_on_by(table, **edge, action, rest, span))?;
    Some(edge.to)
}

// Whether the two parts through the state have at least a step each, and together as many as the entry says.
fn sums_by(table: &Table, left: u8, right: u8, span: Span, through: u8) -> bool
    requires left { In table.now.scope (left, span.from, span.to) }
    requires right { right < table.now.scope.symbols }
    requires worth { span.worth < 5000 }
    requires through { through < table.now.scope.states }
    ensures { Decides result (Sums table.now left right span.from span.to span.worth through) }
{
    let first = table.entry(Fact {
        symbol: left,
        from: span.from,
        to: through,
    });
    let second = table.entry(Fact {
        symbol: right,
        from: through,
        to: span.to,
    });
    first > 1 && first < span.worth && second == span.worth + 1 - first
}

// A state through which they do.
fn sums_through(table: &Table, left: u8, right: u8, span: Span) -> Option<u8>
    requires left { In table.now.scope (left, span.from, span.to) }
    requires right { right < table.now.scope.symbols }
    requires worth { span.worth < 5000 }
    ensures { MatchOption result ((u : ℕ) → u < table.now.scope.states → Sums table.now left right span.from span.to span.worth u → ⊥) (λ u. (u < table.now.scope.states) × Sums table.now left right span.from span.to span.worth u) }
{
    (0..table.states()).find(|through| sums_by(table, left, right, span, *through))
}

// A way by the rule to the fact of its head between the two states from facts with fewer steps.
pub fn shrink(table: &Table, rule: Rule, span: Span) -> Option<Split>
    requires within { SymbolsBelow table.now.scope.symbols rule }
    requires from { span.from < table.now.scope.states }
    requires to { span.to < table.now.scope.states }
    requires some { 1 < span.worth }
    requires worth { span.worth < 5000 }
    ensures { MatchOption result ((n : ℕ) → span.worth ≡ n + 1 → GivesIn (ground_of table.now.scope) rule (Less table.now n) (Less table.now n) (head_of rule, span.from, span.to) n → ⊥) (λ found. (rules : List RuleOf) (n : ℕ) → Among rule rules → Sound rules table.now → span.worth ≡ n + 1 → Splits rules table.now (record { symbol = head_of rule; from = span.from; to = span.to }) n found) }
{
    match rule {
        Rule::Letter { action, .. } => {
            if span.worth != 2 || !steps_to(table, action, span.from, span.to) {
                return None;
            }
            Some(Split::Last {
                action,
                to: span.to,
            })
        }
        Rule::Lead { action, rest, .. } => {
            let via = steps_on(table, action, rest, span)?;
            if span.worth == 2 {
                return Some(Split::Last {
                    action,
                    to: span.to,
                });
            }
            Some(Split::Onward {
                action,
                to: via,
                rest,
            })
        }
        Rule::Pair { left, right, .. } => {
            let through = sums_through(table, left, right, span)?;
            Some(Split::Both {
                left,
                through,
                right,
            })
        }
        Rule::Empty { .. } | Rule::Same { .. } => None,
    }
}
