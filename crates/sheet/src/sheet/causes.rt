// Which calls a sheet refuses, and why, and the marks that the other ones go by.
ghost use Rattle.std.specs.Prelude.{◌≡◌, length, IfOk};
ghost use Rattle.model.specs.Refusals.{refusal, Accept};
ghost use Rattle.sheet.specs.Orders.{at, MarksOf};
ghost use Rattle.sheet.specs.Books.{model_of};
ghost use Rattle.sheet.specs.Causes.{Full, CauseProposition, CauseNot, CauseOr, CausePair, CauseUntil, CauseRelease, CausePath, Unfit, told};

use crate::sheet::Sheet;
use language::{Fitting, UntilLanguage, Watcher};
use logic::Layout;
use model::{NumberSet, Refusal};
use release::Watched;

impl Sheet<'_> {
    pub(crate) fn check_room(&self) -> Result<(), Refusal>
        ensures { Full (length self.now.questions.items) (refusal result) }
    {
        if self.questions.is_full() {
            return Err(Refusal::SheetFull);
        }
        Ok(())
    }

    pub(crate) fn check_proposition(&self, p: u8) -> Result<(), Refusal>
        ensures { CauseProposition p (length self.now.questions.items) (refusal result) }
    {
        if p > 31 {
            return Err(Refusal::NoSuchProposition);
        }
        self.check_room()
    }

    // The marks of question q, for a call that adds a question.
    pub(crate) fn part(&self, q: usize) -> Result<NumberSet, Refusal>
        ensures cause { CauseNot q (length self.now.questions.items) (refusal result) }
        ensures marks { IfOk result (λ x. x ≡ (at self.now.questions.items q).marks) }
    {
        let question = self.question(q)?;
        self.check_room()?;
        Ok(question.marks())
    }

    // The marks of two questions.
    pub(crate) fn pair(&self, left: usize, right: usize) -> Result<(NumberSet, NumberSet), Refusal>
        ensures cause { CausePair left right (length self.now.questions.items) (refusal result) }
        ensures marks { IfOk result (λ x. MarksOf self.now.questions.items left right x) }
    {
        Ok((self.question(left)?.marks(), self.question(right)?.marks()))
    }

    // The marks of two questions, for a call that adds a question.
    pub(crate) fn parts(&self, left: usize, right: usize) -> Result<(NumberSet, NumberSet), Refusal>
        ensures cause { CauseOr left right (length self.now.questions.items) (refusal result) }
        ensures marks { IfOk result (λ x. MarksOf self.now.questions.items left right x) }
    {
        let pair = self.pair(left, right)?;
        self.check_room()?;
        Ok(pair)
    }

    // The language, for a search with a work table of so many entries.
    pub(crate) fn fitting<'l, L: UntilLanguage>(
        &self,
        language: &'l L,
        work: usize,
    ) -> Result<Fitting<'l, L>, Refusal>
        ensures same { IfOk result (λ f. f ≡ language.now) }
        ensures cause { Unfit (model_of self.now) (told (L.Alphabet.known language.now) (L.UntilLanguage.symbols language.now) (L.UntilLanguage.rules language.now)) work Accept (refusal result) }
    {
        if language.action_count() != self.model.actions() {
            return Err(Refusal::OtherAlphabet);
        }
        let fitting = Fitting::of(language)?;
        let layout = Layout {
            symbols: fitting.symbols(),
            states: self.model.states(),
        };
        if work < layout.entries() {
            return Err(Refusal::WorkTooShort);
        }
        Ok(fitting)
    }

    // The language and the marks of guard and goal, for an until call.
    pub(crate) fn until_parts<'l, L: UntilLanguage>(
        &self,
        guard: usize,
        goal: usize,
        language: &'l L,
        work: usize,
    ) -> Result<(Fitting<'l, L>, (NumberSet, NumberSet)), Refusal>
        ensures cause { CauseUntil (model_of self.now) (told (L.Alphabet.known language.now) (L.UntilLanguage.symbols language.now) (L.UntilLanguage.rules language.now)) work guard goal (length self.now.questions.items) (refusal result) }
        ensures same { IfOk result (λ x. x.0 ≡ language.now) }
        ensures marks { IfOk result (λ x. MarksOf self.now.questions.items guard goal x.1) }
    {
        let fitting = self.fitting(language, work)?;
        let marks = self.parts(guard, goal)?;
        Ok((fitting, marks))
    }

    // The watcher beside the model and the marks of the two questions, for a release call.
    pub(crate) fn release_parts<'l, W: Watcher>(
        &'l self,
        freeing: usize,
        kept: usize,
        watcher: &'l W,
    ) -> Result<(Watched<'l, W>, (NumberSet, NumberSet)), Refusal>
        ensures cause { CauseRelease (model_of self.now) (W.Alphabet.known watcher.now) (W.Watcher.table watcher.now) freeing kept (length self.now.questions.items) (refusal result) }
        ensures watcher { IfOk result (λ x. x.0.watcher.now ≡ watcher.now) }
        ensures model { IfOk result (λ x. x.0.model.now ≡ model_of self.now) }
        ensures marks { IfOk result (λ x. MarksOf self.now.questions.items freeing kept x.1) }
    {
        let watched = Watched::of(watcher, self.model)?;
        let marks = self.parts(freeing, kept)?;
        Ok((watched, marks))
    }

    // The language and the marks of guard and goal, for a path call: all its causes but the last, which only the search
    // can tell. The lengths of the lent memory come one by one, as the call is given the memory.
    pub(crate) fn path_parts<'l, L: UntilLanguage>(
        &self,
        guard: usize,
        goal: usize,
        language: &'l L,
        state: u8,
        work: usize,
        waiting: usize,
        steps: usize,
    ) -> Result<(Fitting<'l, L>, (NumberSet, NumberSet)), Refusal>
        ensures cause { CausePath (model_of self.now) (told (L.Alphabet.known language.now) (L.UntilLanguage.symbols language.now) (L.UntilLanguage.rules language.now)) work waiting steps guard goal state (λ _. ⊥) (length self.now.questions.items) (refusal result) }
        ensures same { IfOk result (λ x. x.0 ≡ language.now) }
        ensures marks { IfOk result (λ x. MarksOf self.now.questions.items guard goal x.1) }
    {
        if state >= self.model.states() {
            return Err(Refusal::NoSuchState);
        }
        let fitting = self.fitting(language, work)?;
        if waiting < steps {
            return Err(Refusal::MemoryTooShort);
        }
        let marks = self.pair(guard, goal)?;
        Ok((fitting, marks))
    }
}
