// Lowering by lead rules: along an edge first, and then by a fact. `sweep` says why each loop has a text of its own.
// An edge has no model, and so cannot say that it is one of its edges.
ghost use Rattle.std.specs.Prelude.{◌≡◌, ◌<◌};
ghost use Rattle.model.specs.Models.{HasEdge};
ghost use Rattle.model.specs.Sets.{Has};
ghost use Rattle.language.specs.declared.rule.Rule.TheVariants.{Lead};
ghost use Rattle.least.specs.Bands.{low_of, high_of};
ghost use Rattle.least.specs.Entries.{In};
ghost use Rattle.least.specs.Lowering.{Always, LedIn, LedAlong, ShutRule};

use crate::band::Band;
use crate::fact::Fact;
use crate::table::Table;
use model::Edge;

// The parts of a lead rule. They have no table, and so cannot say that they are of its scope.
#[derive(Clone, Copy)]
pub(crate) struct Leading {
    pub head: u8,
    pub action: u8,
    pub rest: u8,
}

impl Table<'_> {
    // By the edge and then the fact of the rest to the state, if its entry lies in the band.
    fn lead_to(&mut self, top: u16, band: Band, lead: Leading, edge: Edge, to: u8) -> bool
        requires edge { HasEdge self.old.scope.ground.now.model edge }
        requires action { edge.action ≡ lead.action }
        requires guarded { Has self.old.scope.ground.now.guard edge.from }
        requires rest { In self.old.scope (lead.rest, edge.to, to) }
        requires head { lead.head < self.old.scope.symbols }
        ensures { Always (Lead lead.head lead.action lead.rest) (LedIn top (low_of band) (high_of band) lead.head lead.action lead.rest edge to) self.old self.new result }
    {
        let part = self.cell(Fact {
            symbol: lead.rest,
            from: edge.to,
            to,
        });
        let known = self.entries[part];
        if !band.has(known) {
            return false;
        }
        let cell = self.cell(Fact {
            symbol: lead.head,
            from: edge.from,
            to,
        });
        self.lift(top, part, 1, cell)
    }

    // By the edge, if it has the action and the guard holds where it starts.
    fn lead_along(&mut self, top: u16, band: Band, lead: Leading, edge: Edge) -> bool
        requires edge { HasEdge self.old.scope.ground.now.model edge }
        requires head { lead.head < self.old.scope.symbols }
        requires rest { lead.rest < self.old.scope.symbols }
        ensures { Always (Lead lead.head lead.action lead.rest) (LedAlong top (low_of band) (high_of band) lead.head lead.action lead.rest edge) self.old self.new result }
    {
        if edge.action != lead.action || !self.admits(edge.from) {
            return false;
        }
        let mut fell = false;
        for to in 0..self.states() {
            fell |= self.lead_to(top, band, lead, edge, to);
        }
        fell
    }

    // By a lead rule with all facts of the rest that have an entry in the band.
    pub(crate) fn sweep_lead(&mut self, top: u16, band: Band, lead: Leading) -> bool
        requires head { lead.head < self.old.scope.symbols }
        requires rest { lead.rest < self.old.scope.symbols }
        ensures { Always (Lead lead.head lead.action lead.rest) (ShutRule top (low_of band) (high_of band) (Lead lead.head lead.action lead.rest)) self.old self.new result }
    {
        let mut fell = false;
        for edge in self.edges() {
            fell |= self.lead_along(top, band, lead, *edge);
        }
        fell
    }
}
