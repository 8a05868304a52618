// Lowering by the rules that have no part. `sweep` says why each loop has a text of its own, and
// its file why symbols are asked to be of the scope.
ghost use Rattle.std.specs.Prelude.{◌<◌};
ghost use Rattle.model.specs.Models.{HasEdge};
ghost use Rattle.language.specs.Rules.{SymbolsBelow};
ghost use Rattle.language.specs.declared.rule.Rule.TheVariants.{Empty, Letter};
ghost use Rattle.least.specs.Lowering.{Always, LetterAt, ShutStart};

use crate::fact::Fact;
use crate::table::Table;
use language::Rule;
use model::Edge;

impl Table<'_> {
    // By the edge alone.
    fn letter_by(&mut self, top: u16, head: u8, action: u8, edge: Edge) -> bool
        requires head { head < self.old.scope.symbols }
        requires edge { HasEdge self.old.scope.ground.now.model edge }
        ensures { Always (Letter head action) (LetterAt top head action edge) self.old self.new result }
    {
        if edge.action == action && self.admits(edge.from) {
            let cell = self.cell(Fact {
                symbol: head,
                from: edge.from,
                to: edge.to,
            });
            return self.lower(top, cell, 2);
        }
        false
    }

    // By a letter rule.
    fn start_letter(&mut self, top: u16, head: u8, action: u8) -> bool
        requires { head < self.old.scope.symbols }
        ensures { Always (Letter head action) (ShutStart top (Letter head action)) self.old self.new result }
    {
        let mut fell = false;
        for edge in self.edges() {
            fell |= self.letter_by(top, head, action, *edge);
        }
        fell
    }

    // By an empty rule.
    fn start_empty(&mut self, top: u16, head: u8) -> bool
        requires { head < self.old.scope.symbols }
        ensures { Always (Empty head) (ShutStart top (Empty head)) self.old self.new result }
    {
        let mut fell = false;
        for state in 0..self.states() {
            let cell = self.cell(Fact {
                symbol: head,
                from: state,
                to: state,
            });
            fell |= self.lower(top, cell, 1);
        }
        fell
    }

    // By the rule, if it has no part.
    pub(crate) fn start_rule(&mut self, top: u16, rule: Rule) -> bool
        requires { SymbolsBelow self.old.scope.symbols rule }
        ensures { Always rule (ShutStart top rule) self.old self.new result }
    {
        match rule {
            Rule::Empty { head } => self.start_empty(top, head),
            Rule::Letter { head, action } => self.start_letter(top, head, action),
            Rule::Lead { .. } | Rule::Same { .. } | Rule::Pair { .. } => false,
        }
    }
}
