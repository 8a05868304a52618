// What a model tells.
ghost use Rattle.std.specs.Prelude.{◌≡◌, Decides};
ghost use Rattle.model.specs.Models.{edges_of, HasEdge};

use crate::edge::Edge;
use crate::model::Model;

impl Model {
    // How many states there are.
    pub fn states(&self) -> u8
        ensures { result ≡ self.now.states }
    {
        self.states
    }

    // How many actions there are.
    pub fn actions(&self) -> u8
        ensures { result ≡ self.now.actions }
    {
        self.actions
    }

    // The edges, in the order in which they were added.
    pub fn edges(&self) -> &[Edge]
        ensures { result.now ≡ edges_of self.now }
    {
        self.edges.as_slice()
    }

    // Whether the edge is there.
    pub fn has_edge(&self, edge: Edge) -> bool
        ensures { Decides result (HasEdge self.now edge) }
    {
        self.edges.contains(&edge)
    }
}
