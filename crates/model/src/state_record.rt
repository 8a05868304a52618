// What a model knows of one state.
ghost use Rattle.std.specs.Prelude.{◌≡◌, ◌<◌};
ghost use Rattle.model.specs.Relations.{Joined};
ghost use Rattle.model.specs.Sets.{Has, nothing};

use crate::number_set::NumberSet;

// The propositions that hold at a state.
#[derive(Clone, Copy, PartialEq, Eq, Debug)]
pub struct StateRecord {
    propositions: NumberSet,
}

impl StateRecord {
    // A state with no proposition.
    pub fn blank() -> StateRecord
        ensures { result ≡ record { propositions = nothing } }
    {
        StateRecord {
            propositions: NumberSet::empty(),
        }
    }

    // The propositions that hold.
    pub fn propositions(self) -> NumberSet
        ensures { result ≡ self.propositions }
    {
        self.propositions
    }

    // Adds the proposition p, if it is below 32.
    pub fn add(&mut self, p: u8)
        ensures { Joined (Has self.old.propositions) (Has self.new.propositions) (λ t. (t ≡ p) × (p < 32)) }
    {
        self.propositions = self.propositions.union(NumberSet::single(p));
    }
}
