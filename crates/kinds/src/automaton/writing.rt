// How an automaton is written. `size` and `set_final` are like those of grammars and table watchers, one line or two on
// another type: a shared one would need a trait with a member for each of these lines.
ghost use Rattle.std.specs.Prelude.{◌≡◌, Decides, MatchResult};
ghost use Rattle.model.specs.Refusals.{refusal};
ghost use Rattle.model.specs.Relations.{Among};
ghost use Rattle.kinds.specs.Automata.{edges_of, NoEdges, AfterEdge, FinalSet, CauseSize, CauseEdge, CauseFinal};

use crate::automaton::Automaton;
use model::{Edge, RecordSet, Refusal, SizeOrOne};

impl Automaton {
    // One state, one action, no edge and no final state.
    pub fn new() -> Automaton
        ensures { NoEdges 1 1 result }
    {
        Automaton::bare(SizeOrOne::one(), SizeOrOne::one())
    }

    // No edge and no final state.
    fn bare(states: SizeOrOne<16>, actions: SizeOrOne<16>) -> Automaton
        ensures { NoEdges states.count actions.count result }
    {
        Automaton {
            states: states.get(),
            actions: actions.get(),
            edges: RecordSet::new(),
            finals: [false; 16],
        }
    }

    // Sets the numbers of states and actions, and removes all edges and final states.
    pub fn size(&mut self, states: u8, actions: u8) -> Result<(), Refusal>
        ensures cause { CauseSize states actions (refusal result) }
        ensures after { MatchResult result (λ _. NoEdges states actions self.new) (λ _. self.new ≡ self.old) }
    {
        *self = Automaton::bare(states.try_into()?, actions.try_into()?);
        Ok(())
    }

    // The edges, in the order in which they were added.
    pub fn edges(&self) -> &[Edge]
        ensures { result.now ≡ edges_of self.now }
    {
        self.edges.as_slice()
    }

    // Whether the edge is there.
    pub fn has_edge(&self, edge: Edge) -> bool
        ensures { Decides result (Among edge (edges_of self.now)) }
    {
        self.edges.contains(&edge)
    }

    // Adds an edge; one that is there already stays as it is.
    pub fn add_edge(&mut self, edge: Edge) -> Result<(), Refusal>
        ensures cause { CauseEdge self.old edge (refusal result) }
        ensures after { MatchResult result (λ _. AfterEdge self.old self.new edge) (λ _. self.new ≡ self.old) }
    {
        if edge.action >= self.actions {
            return Err(Refusal::NoSuchAction);
        }
        if edge.from >= self.states || edge.to >= self.states {
            return Err(Refusal::NoSuchSymbol);
        }
        self.edges.add(edge)
    }

    // Makes a state final.
    pub fn set_final(&mut self, state: u8) -> Result<(), Refusal>
        ensures cause { CauseFinal self.old state (refusal result) }
        ensures after { MatchResult result (λ _. FinalSet self.old self.new state) (λ _. self.new ≡ self.old) }
    {
        if state >= self.states {
            return Err(Refusal::NoSuchSymbol);
        }
        self.finals[state as usize] = true;
        Ok(())
    }
}
