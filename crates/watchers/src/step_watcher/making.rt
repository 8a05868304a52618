// How a step watcher is made.
ghost use Rattle.std.specs.Prelude.{IfOk};
ghost use Rattle.model.specs.Refusals.{refusal};
ghost use Rattle.watchers.specs.Steps.{CauseSteps, StepsMade};

use crate::step_watcher::StepWatcher;
use model::{Refusal, SizeOrOne};

impl StepWatcher {
    // A watcher over the given number of actions; its state is the number of steps so far, modulo `modulus`.
    pub fn new(modulus: u8, remainder: u8, actions: u8) -> Result<StepWatcher, Refusal>
        ensures cause { CauseSteps modulus remainder actions (refusal result) }
        ensures made { IfOk result (StepsMade modulus remainder actions) }
    {
        let states: SizeOrOne<32> = modulus.try_into()?;
        let actions: SizeOrOne<16> = actions.try_into()?;
        if remainder >= modulus {
            return Err(Refusal::Contradictory);
        }
        Ok(StepWatcher {
            modulus: states.get(),
            remainder,
            actions: actions.get(),
        })
    }
}
