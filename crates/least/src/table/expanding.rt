// Lowering by the rules that have a fact as a part. Rows go by place: both lie in the one lent table, which `join` writes.
// `sweep` says why each loop has a text of its own.
ghost use Rattle.std.specs.Prelude.{◌<◌};
ghost use Rattle.language.specs.Rules.{SymbolsBelow};
ghost use Rattle.language.specs.declared.rule.Rule.TheVariants.{Pair};
ghost use Rattle.least.specs.Entries.{triple, In};
ghost use Rattle.least.specs.Lowering.{Always, ShutAt, ShutSecond, ShutTurn};
ghost use Rattle.least.specs.Bands.{seconds_of};

use crate::band::Band;
use crate::fact::Fact;
use crate::table::Table;
use language::Rule;

impl Table<'_> {
    // By a pair rule with the fact as its first part.
    fn expand_left(&mut self, top: u16, fact: Fact, head: u8, right: u8) -> bool
        requires fact { In self.old.scope (triple fact) }
        requires head { head < self.old.scope.symbols }
        requires right { right < self.old.scope.symbols }
        ensures { Always (Pair head fact.symbol right) (ShutAt top (Pair head fact.symbol right) (triple fact)) self.old self.new result }
    {
        let part = self.cell(fact);
        let known = self.entries[part];
        if known == 0 || known > top as u32 {
            return false;
        }
        let others = self.cell(Fact {
            symbol: right,
            from: fact.to,
            to: 0,
        });
        let heads = self.cell(Fact {
            symbol: head,
            from: fact.from,
            to: 0,
        });
        if !self.any_lower(top, known, others, heads) {
            return false;
        }
        let mut fell = false;
        for to in 0..self.states() as usize {
            fell |= self.join(top, part, others + to, heads + to);
        }
        fell
    }

    // By a pair rule with the fact as its second part.
    fn expand_right(&mut self, top: u16, fact: Fact, head: u8, left: u8) -> bool
        requires fact { In self.old.scope (triple fact) }
        requires head { head < self.old.scope.symbols }
        requires left { left < self.old.scope.symbols }
        ensures { Always (Pair head left fact.symbol) (ShutSecond top (Pair head left fact.symbol) (triple fact)) self.old self.new result }
    {
        let mut fell = false;
        let part = self.cell(fact);
        for from in 0..self.states() {
            let other = self.cell(Fact {
                symbol: left,
                from,
                to: fact.from,
            });
            let cell = self.cell(Fact {
                symbol: head,
                from,
                to: fact.to,
            });
            fell |= self.join(top, other, part, cell);
        }
        fell
    }

    // By a same or pair rule, where the fact can be a part of it; as the second part of a pair only if the band takes those.
    pub(crate) fn expand(&mut self, top: u16, band: Band, fact: Fact, rule: Rule) -> bool
        requires fact { In self.old.scope (triple fact) }
        requires within { SymbolsBelow self.old.scope.symbols rule }
        ensures { Always rule (ShutTurn top (seconds_of band) rule (triple fact)) self.old self.new result }
    {
        match rule {
            Rule::Same { head, body } => {
                if body != fact.symbol {
                    return false;
                }
                let part = self.cell(fact);
                let cell = self.cell(Fact {
                    symbol: head,
                    ..fact
                });
                self.lift(top, part, 0, cell)
            }
            Rule::Pair { head, left, right } => {
                let first = left == fact.symbol && self.expand_left(top, fact, head, right);
                if !band.takes_seconds() {
                    return first;
                }
                let second = right == fact.symbol && self.expand_right(top, fact, head, left);
                first | second
            }
            Rule::Empty { .. } | Rule::Letter { .. } | Rule::Lead { .. } => false,
        }
    }
}
