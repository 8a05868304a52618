ghost use Rattle.std.specs.Prelude.{◌≡◌, ◌*◌, ◌≤◌, length, Decides};
ghost use Rattle.model.specs.Models.{edges_of};
ghost use Rattle.model.specs.Sets.{Has};
ghost use Rattle.model.specs.Relations.{Triple};
ghost use Rattle.logic.specs.Layouts.{place};
ghost use Rattle.least.specs.Entries.{triple, entry_of, In};

use crate::fact::Fact;
use crate::scope::Scope;
use crate::table::Table;
use model::Edge;

impl<'a> Table<'a> {
    // A table over lent memory, in which no fact has an entry.
    pub fn empty(scope: Scope<'a>, entries: &'a mut [u32]) -> Table<'a>
        requires { scope.symbols * scope.states * scope.states ≤ length entries.old }
        ensures scope { result.scope ≡ scope.entry }
        ensures none { (p : Triple) → In scope.entry p → entry_of result p ≡ 0 }
    {
        entries[..scope.layout().entries()].fill(0);
        Table { scope, entries }
    }

    // How many states the model has.
    pub fn states(&self) -> u8
        ensures { result ≡ self.now.scope.states }
    {
        self.scope.states()
    }

    // Whether the guard holds at the state.
    pub fn admits(&self, state: u8) -> bool
        ensures { Decides result (Has self.now.scope.ground.now.guard state) }
    {
        self.scope.admits(state)
    }

    // The edges of the model.
    pub fn edges(&self) -> &'a [Edge]
        ensures { result.now ≡ edges_of self.now.scope.ground.now.model }
    {
        self.scope.edges()
    }

    // Where the entry of a fact stands.
    pub(crate) fn cell(&self, fact: Fact) -> usize
        ensures { result ≡ place self.now.scope.states (triple fact) }
    {
        self.scope.layout().cell(fact.symbol, fact.from, fact.to)
    }

    // All entries, and what follows them in the lent memory.
    pub fn entries(&self) -> &[u32]
        ensures { result.now ≡ self.now.entries.now }
    {
        &*self.entries
    }

    // The entry of a fact.
    pub fn entry(&self, fact: Fact) -> u32
        requires { In self.now.scope (triple fact) }
        ensures { result ≡ entry_of self.now (triple fact) }
    {
        self.entries[self.cell(fact)]
    }
}
