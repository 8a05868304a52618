// A model that is still being written.
ghost use Rattle.std.specs.Prelude.{◌≡◌, MatchResult};
ghost use Rattle.model.specs.Refusals.{refusal};
ghost use Rattle.model.specs.Drafts.{Bare, LabelAdded, CauseSize, CauseEdge, CauseLabel, AfterEdge};

use crate::edge::Edge;
use crate::model::Model;
use crate::refusal::Refusal;
use crate::size_or_one::SizeOrOne;

// Edges and propositions are given to a draft alone; sealing it gives the model.
#[derive(Drop)]
pub struct Draft {
    model: Model,
}

impl Draft {
    // One state, one action, no edge and no proposition.
    pub fn new() -> Draft
        ensures { Bare 1 1 result.model }
    {
        Draft {
            model: Model::bare(SizeOrOne::one(), SizeOrOne::one()),
        }
    }

    // Sets the numbers of states and actions, and removes all edges and propositions. One line, as in each kind of
    // language: a shared one would need a trait with a member for it.
    pub fn size(&mut self, states: u8, actions: u8) -> Result<(), Refusal>
        ensures cause { CauseSize states actions (refusal result) }
        ensures after { MatchResult result (λ _. Bare states actions self.new.model) (λ _. self.new ≡ self.old) }
    {
        self.model = Model::bare(states.try_into()?, actions.try_into()?);
        Ok(())
    }

    // Adds an edge; one that is there already stays as it is.
    pub fn add_edge(&mut self, edge: Edge) -> Result<(), Refusal>
        ensures cause { CauseEdge self.old.model edge (refusal result) }
        ensures after { MatchResult result (λ _. AfterEdge self.old.model self.new.model edge) (λ _. self.new ≡ self.old) }
    {
        if edge.from >= self.model.states() || edge.to >= self.model.states() {
            return Err(Refusal::NoSuchState);
        }
        if edge.action >= self.model.actions() {
            return Err(Refusal::NoSuchAction);
        }
        self.model.add_edge(edge)
    }

    // Adds a proposition to one state, and changes no other state's record. A proposition is tested where it comes in, here
    // and by a sheet: it is no size, which begins at 1.
    pub fn label(&mut self, state: u8, proposition: u8) -> Result<(), Refusal>
        ensures cause { CauseLabel self.old.model state proposition (refusal result) }
        ensures after { MatchResult result (λ _. LabelAdded self.old.model self.new.model state proposition) (λ _. self.new ≡ self.old) }
    {
        if state >= self.model.states() {
            return Err(Refusal::NoSuchState);
        }
        if proposition > 31 {
            return Err(Refusal::NoSuchProposition);
        }
        self.model.label(state, proposition);
        Ok(())
    }

    // Ends the draft and gives the model.
    pub fn seal(self) -> Model
        ensures { result ≡ self.model }
    {
        self.model
    }
}
