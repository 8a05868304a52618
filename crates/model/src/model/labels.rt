// The propositions of a model's states.
ghost use Rattle.std.specs.Prelude.{◌<◌};
ghost use Rattle.model.specs.Models.{Labelled};
ghost use Rattle.model.specs.Relations.{Exactly};
ghost use Rattle.model.specs.Sets.{Has};

use crate::model::Model;
use crate::number_set::NumberSet;

impl Model {
    // The states at which the proposition p holds.
    pub fn labelled(&self, p: u8) -> NumberSet
        ensures { Exactly (Has result) (λ s. (s < self.now.states) × Labelled self.now s p) }
    {
        let mut found = NumberSet::empty();
        for s in 0..self.states {
            if self.records[s as usize].propositions().has(p) {
                found = found.union(NumberSet::single(s));
            }
        }
        found
    }
}
