// The release question, over any watcher.
ghost use Rattle.std.specs.Prelude.{◌<◌};
ghost use Rattle.model.specs.Sets.{Has};
ghost use Rattle.logic.specs.Formulas.{release as release_of};
ghost use Rattle.logic.specs.Maximal.{SomeKeeps};
ghost use Rattle.sheet.specs.Orders.{at};
ghost use Rattle.sheet.specs.Books.{formula, model_of};
ghost use Rattle.sheet.specs.Causes.{CauseRelease};
ghost use Rattle.sheet.specs.Asking.{Asked};
ghost use Rattle.sheet.specs.declared.question.Form.TheVariants.{Release as ReleaseForm};

use crate::question::Form;
use crate::sheet::Sheet;
use language::Watcher;
use model::Refusal;
use release::keeping;

impl Sheet<'_> {
    // Asks for the states from which some maximal path keeps the release: at each moment whose word is in the watcher's
    // set the kept question holds, or the freeing question held at an earlier moment.
    pub fn release<W: Watcher>(
        &mut self,
        freeing: usize,
        kept: usize,
        watcher: &W,
    ) -> Result<usize, Refusal>
        ensures { Asked self.old self.new (CauseRelease (model_of self.old) (W.Alphabet.known watcher.now) (W.Watcher.table watcher.now) freeing kept) (ReleaseForm freeing kept) (λ s. (s < (model_of self.old).states) × SomeKeeps (model_of self.old) (Has (at self.old.questions.items freeing).marks) (Has (at self.old.questions.items kept).marks) (W.Watcher.words watcher.now) s) (λ book. release_of (formula book freeing) (formula book kept) (W.Watcher.table watcher.now)) result }
    {
        let (watched, (frees, keeps)) = self.release_parts(freeing, kept, watcher)?;
        let marks = keeping(watched, frees, keeps);
        Ok(self.add(Form::Release(freeing, kept), marks))
    }
}
