// Edges of a model, and steps along them.
ghost use Rattle.std.proofs.Common.{rules};

use crate::record::Record;

// By its action, an edge leads from one state to another or to the same. An edge has no model, and so cannot say that it is
// one of its edges.
#[derive(Clone, Copy, Default, PartialEq, Eq, Debug)]
pub struct Edge {
    pub from: u8,
    pub action: u8,
    pub to: u8,
}

// A step of a path: its action and the state that it reaches.
#[derive(Clone, Copy, PartialEq, Eq, Debug)]
pub struct Step {
    pub action: u8,
    pub state: u8,
}

impl Record for Edge {
    ghost identical = { Prim.search rules };

    ghost equal = { Prim.search rules };
}
