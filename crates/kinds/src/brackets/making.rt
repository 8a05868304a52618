// How brackets are made.
ghost use Rattle.std.specs.Prelude.{◌≡◌, ℕ, ◌<◌, false, length, IfOk, slice_index_or};
ghost use Rattle.model.specs.Refusals.{refusal};
ghost use Rattle.kinds.specs.BracketWords.{CauseBrackets, BracketsMade, other_action};

use crate::brackets::Brackets;
use model::{Refusal, SizeOrOne};

impl Brackets {
    // Brackets by two actions; with no action at all, up is already too large.
    pub fn new(up: u8, down: u8, actions: u8) -> Result<Brackets, Refusal>
        ensures cause { CauseBrackets up down actions (refusal result) }
        ensures made { IfOk result (BracketsMade up down actions) }
    {
        if up >= actions || down >= actions {
            return Err(Refusal::NoSuchAction);
        }
        let actions: SizeOrOne<16> = actions.try_into()?;
        if up == down {
            return Err(Refusal::Contradictory);
        }
        Ok(Brackets {
            up,
            down,
            actions: actions.get(),
        })
    }

    // The actions other than up and down, as marks by number: `Automaton` says why.
    pub(crate) fn others(&self) -> [bool; 16]
        ensures long { length result ≡ 16 }
        ensures marks { (a : ℕ) → a < 16 → slice_index_or result a false ≡ other_action self.now a }
    {
        let mut marks = [true; 16];
        marks[self.up as usize] = false;
        marks[self.down as usize] = false;
        marks
    }
}
