// How a draft writes its model; outside this crate a model does not change.
ghost use Rattle.std.specs.Prelude.{◌≡◌, ◌<◌, ◌≤◌, MatchResult};
ghost use Rattle.model.specs.Refusals.{refusal};
ghost use Rattle.model.specs.RecordSets.{CauseAdd};
ghost use Rattle.model.specs.Edges.{Inside};
ghost use Rattle.model.specs.Models.{edges_of};
ghost use Rattle.model.specs.Drafts.{Bare, AfterEdge, LabelAdded};

use crate::edge::Edge;
use crate::model::Model;
use crate::record_set::RecordSet;
use crate::refusal::Refusal;
use crate::size_or_one::SizeOrOne;
use crate::state_record::StateRecord;

impl Model {
    // A model with no edge and no proposition.
    pub(crate) fn bare(states: SizeOrOne<32>, actions: SizeOrOne<16>) -> Model
        ensures { Bare states.count actions.count result }
    {
        Model {
            states: states.get(),
            actions: actions.get(),
            records: [StateRecord::blank(); 32],
            edges: RecordSet::new(),
        }
    }

    // Adds an edge that is inside; one that is there already stays as it is.
    pub(crate) fn add_edge(&mut self, edge: Edge) -> Result<(), Refusal>
        requires { Inside self.old.states self.old.actions edge }
        ensures cause { CauseAdd 256 (edges_of self.old) edge (refusal result) }
        ensures after { MatchResult result (λ _. AfterEdge self.old self.new edge) (λ _. self.new ≡ self.old) }
    {
        self.edges.add(edge)
    }

    // Adds a proposition to one state, by lending its record.
    pub(crate) fn label(&mut self, state: u8, p: u8)
        requires state { state < self.old.states }
        requires proposition { p ≤ 31 }
        ensures { LabelAdded self.old self.new state p }
    {
        self.records[state as usize].add(p);
    }
}
