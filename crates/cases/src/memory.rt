// Memory that the cases lend, filled so that a write can be seen, and what a call left of it.
use language::UntilLanguage;
use model::{Refusal, Step};
use sheet::{Fact, Sheet};
use std::alloc::{AllocError, Global};

const FACT: Fact = Fact {
    symbol: 99,
    from: 99,
    to: 99,
};

const STEP: Step = Step {
    action: 99,
    state: 99,
};

// A work table of sevens.
pub fn table(heap: Global, entries: usize) -> Result<Vec<u32>, AllocError> {
    vec![in heap; 7u32; entries]
}

// How many entries of a work table are as they were lent.
pub fn sevens(table: &[u32]) -> usize {
    table.iter().filter(|entry| **entry == 7).count()
}

// The two questions of an until.
#[derive(Clone, Copy)]
pub struct Parts {
    pub guard: usize,
    pub goal: usize,
}

// Work table, waiting memory and step list, lent to a path call together.
#[derive(Drop)]
pub struct Desk {
    pub work: Vec<u32>,
    pub waiting: Vec<Fact>,
    pub steps: Vec<Step>,
}

impl Desk {
    pub fn new(
        heap: Global,
        entries: usize,
        waiting: usize,
        steps: usize,
    ) -> Result<Desk, AllocError> {
        Ok(Desk {
            work: table(heap, entries)?,
            waiting: vec![in heap; FACT; waiting]?,
            steps: vec![in heap; STEP; steps]?,
        })
    }

    // Asks for a path, with this memory.
    pub fn path<L: UntilLanguage>(
        &mut self,
        sheet: &Sheet,
        parts: Parts,
        language: &L,
        state: u8,
    ) -> Result<Option<usize>, Refusal> {
        sheet.path(
            parts.guard,
            parts.goal,
            language,
            state,
            &mut self.work,
            &mut self.waiting,
            &mut self.steps,
        )
    }

    // How many entries of the waiting memory are as they were lent.
    pub fn unused(&self) -> usize {
        self.waiting.iter().filter(|fact| **fact == FACT).count()
    }

    // How many entries of the step list are as they were lent.
    pub fn untouched(&self) -> usize {
        self.steps.iter().filter(|step| **step == STEP).count()
    }

    // How many steps, from a place on, have the action without a break.
    pub fn leading(&self, from: usize, action: u8) -> usize {
        let later = self.steps.iter().skip(from);
        later.take_while(|step| step.action == action).count()
    }
}
