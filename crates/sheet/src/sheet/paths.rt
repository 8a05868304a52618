// The shortest path behind an until.
ghost use Rattle.std.specs.Prelude.{◌≡◌, length};
ghost use Rattle.sheet.specs.Causes.{told};
ghost use Rattle.sheet.specs.Witnesses.{Witnessed, Unless24};

use crate::sheet::Sheet;
use language::UntilLanguage;
use least::Fact;
use logic::GuardedModel;
use model::{Refusal, Step};
use path::{Aim, shortest};
use until::satisfying;

impl Sheet<'_> {
    // A shortest path from the state with its word in the language, the guard at every state before its end and the goal
    // at its end: none, or how many steps of it stand in the step list. Work table and waiting memory are scratch.
    // Each part of the call is a parameter of its own, as docs/RULES.md gives the call.
    pub fn path<L: UntilLanguage>(
        &self,
        guard: usize,
        goal: usize,
        language: &L,
        state: u8,
        work: &mut [u32],
        waiting: &mut [Fact],
        steps: &mut [Step],
    ) -> Result<Option<usize>, Refusal>
        ensures answer { Witnessed self.now (told (L.Alphabet.known language.now) (L.UntilLanguage.symbols language.now) (L.UntilLanguage.rules language.now)) (L.UntilLanguage.words language.now) (length work.old) (length waiting.old) steps.old steps.new guard goal state result }
        ensures work { Unless24 result (work.new ≡ work.old) }
        ensures waiting { Unless24 result (waiting.new ≡ waiting.old) }
    {
        let (fitting, (holds, reached)) = self.path_parts(
            guard,
            goal,
            language,
            state,
            work.len(),
            waiting.len(),
            steps.len(),
        )?;
        let guarded = GuardedModel::of(self.model, holds);
        let some = satisfying(&fitting, &guarded, reached, work);
        let aim = Aim {
            state,
            goal: reached,
        };
        shortest(&fitting, &guarded, some, aim, work, waiting, steps)
    }
}
