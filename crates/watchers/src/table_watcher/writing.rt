// How a table watcher is written. `size` and `mark` are like the `size` and `set_final` of automata, one line or two on
// another type: a shared one would need a trait with a member for each of these lines.
ghost use Rattle.std.specs.Prelude.{◌≡◌, MatchResult};
ghost use Rattle.model.specs.Refusals.{refusal};
ghost use Rattle.watchers.specs.TableWatchers.{Plain, NextSet, MarkSet, CauseSize, CauseNext, CauseMark};

use crate::table_watcher::TableWatcher;
use model::{Refusal, SizeOrOne};

impl TableWatcher {
    // One state and one action.
    pub fn new() -> TableWatcher
        ensures { Plain 1 1 result }
    {
        TableWatcher::plain(SizeOrOne::one(), SizeOrOne::one())
    }

    // Every step leads to state 0, and no state is marked.
    fn plain(states: SizeOrOne<32>, actions: SizeOrOne<16>) -> TableWatcher
        ensures { Plain states.count actions.count result }
    {
        TableWatcher {
            states: states.get(),
            actions: actions.get(),
            nexts: [[0; 16]; 32],
            marks: [false; 32],
        }
    }

    // Sets the numbers of states and actions; every step then leads to state 0, and no state is marked.
    pub fn size(&mut self, states: u8, actions: u8) -> Result<(), Refusal>
        ensures cause { CauseSize states actions (refusal result) }
        ensures after { MatchResult result (λ _. Plain states actions self.new) (λ _. self.new ≡ self.old) }
    {
        *self = TableWatcher::plain(states.try_into()?, actions.try_into()?);
        Ok(())
    }

    // Says where one step leads.
    pub fn set_next(&mut self, state: u8, action: u8, to: u8) -> Result<(), Refusal>
        ensures cause { CauseNext self.old state action to (refusal result) }
        ensures after { MatchResult result (λ _. NextSet self.old self.new state action to) (λ _. self.new ≡ self.old) }
    {
        if action >= self.actions {
            return Err(Refusal::NoSuchAction);
        }
        if state >= self.states || to >= self.states {
            return Err(Refusal::NoSuchSymbol);
        }
        self.nexts[state as usize][action as usize] = to;
        Ok(())
    }

    // Marks a state.
    pub fn mark(&mut self, state: u8) -> Result<(), Refusal>
        ensures cause { CauseMark self.old state (refusal result) }
        ensures after { MatchResult result (λ _. MarkSet self.old self.new state) (λ _. self.new ≡ self.old) }
    {
        if state >= self.states {
            return Err(Refusal::NoSuchSymbol);
        }
        self.marks[state as usize] = true;
        Ok(())
    }
}
