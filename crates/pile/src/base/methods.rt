ghost use Rattle.std.specs.Prelude.{◌≡◌, ◌≤◌, [], ◌∷◌, ◌++◌, length, MatchOption, MatchResult, IsNone};
ghost use Rattle.model.specs.Refusals.{refusal, Refuse, Accept};
ghost use Rattle.pile.specs.Items.{items, room};

use crate::base::Pile;
use model::Refusal;

impl<'a, T: Copy> Pile<'a, T> {
    // An empty pile, with room for as many records as the slice has.
    pub fn over(slots: &'a mut [T]) -> Pile<'a, T>
        ensures empty { items result ≡ [] }
        ensures room { room result ≡ length slots.old }
    {
        Pile { slots, count: 0 }
    }

    // Lays a record on top; a full pile refuses it and stays as it is.
    pub fn push(&mut self, item: T) -> Result<(), Refusal>
        ensures cause { Refuse (room self.old ≤ length (items self.old)) 23 Accept (refusal result) }
        ensures items { MatchResult result (λ _. items self.new ≡ items self.old ++ item ∷ []) (λ _. self.new ≡ self.old) }
        ensures room { room self.new ≡ room self.old }
    {
        if self.count == self.slots.len() {
            return Err(Refusal::TableFull);
        }
        self.slots[self.count] = item;
        self.count += 1;
        Ok(())
    }

    // Takes the top record off; an empty pile answers none and stays as it is.
    pub fn pop(&mut self) -> Option<T>
        ensures items { MatchOption result (items self.old ≡ []) (λ top. items self.old ≡ items self.new ++ top ∷ []) }
        ensures unchanged { IsNone result → self.new ≡ self.old }
        ensures room { room self.new ≡ room self.old }
    {
        if self.count == 0 {
            return None;
        }
        self.count -= 1;
        Some(self.slots[self.count])
    }
}
