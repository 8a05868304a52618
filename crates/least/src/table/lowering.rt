// Lowering one entry. Entries go by place, so that the place of a row is worked out once.
ghost use Rattle.std.specs.Prelude.{ℕ, ◌+◌, ◌<◌, ◌≤◌, length, Decides, slice_index};
ghost use Rattle.least.specs.Lowering.{Lowers, Given, Lifted, Summed, Lower};

use crate::table::Table;

// Whether the entries `known` and `second` together are less than `old` and at most the top.
fn is_lower(top: u16, known: u32, second: u32, old: u32) -> bool
    requires some { 0 < known }
    requires low { known ≤ top }
    ensures { Decides result (Lower top known second old) }
{
    let top = top as u32;
    second != 0 && second <= top && known + second <= top + 1 && (old == 0 || known + second <= old)
}

impl Table<'_> {
    // Lowers the entry at the cell to the given one, if it is none or more.
    pub(crate) fn lower(&mut self, top: u16, cell: usize, given: u32) -> bool
        requires cell { cell < length self.old.entries.now }
        requires given { 0 < given }
        ensures { Lowers top cell (Given given) self.old self.new result }
    {
        let old = self.entries[cell];
        if given <= top as u32 && (old == 0 || given < old) {
            self.entries[cell] = given;
            return true;
        }
        false
    }

    // Lowers the entry at the cell by what one part gives, with `more` steps added.
    pub(crate) fn lift(&mut self, top: u16, part: usize, more: u32, cell: usize) -> bool
        requires part { part < length self.old.entries.now }
        requires cell { cell < length self.old.entries.now }
        requires more { more ≤ 1 }
        ensures { Lowers top cell (Lifted part more) self.old self.new result }
    {
        let known = self.entries[part];
        if known == 0 || known > top as u32 {
            return false;
        }
        self.lower(top, cell, known + more)
    }

    // Lowers the entry at the cell by what two parts give together.
    pub(crate) fn join(&mut self, top: u16, left: usize, right: usize, cell: usize) -> bool
        requires left { left < length self.old.entries.now }
        requires right { right < length self.old.entries.now }
        requires cell { cell < length self.old.entries.now }
        ensures { Lowers top cell (Summed left right) self.old self.new result }
    {
        let first = self.entries[left];
        let second = self.entries[right];
        let top_entry = top as u32;
        if first == 0 || first > top_entry || second == 0 || second > top_entry {
            return false;
        }
        self.lower(top, cell, first + second - 1)
    }

    // Whether the entry `known` with one of the row at `others` gives less than stands in the row at `heads`.
    pub(crate) fn any_lower(&self, top: u16, known: u32, others: usize, heads: usize) -> bool
        requires some { 0 < known }
        requires low { known ≤ top }
        requires others { others + self.now.scope.states ≤ length self.now.entries.now }
        requires heads { heads + self.now.scope.states ≤ length self.now.entries.now }
        ensures { Decides result ((k : ℕ) × (k < self.now.scope.states) × Lower top known (slice_index self.now.entries.now (others + k)) (slice_index self.now.entries.now (heads + k))) }
    {
        let mut lower = false;
        // By place, and to the end. The bar is to be as fast as before, which this is. Both chains were proved and miss it:
        // the search for a path took 6 in 100 longer with `zip` and `fold` over two slices, and twice as long with `any`,
        // which stops early and looks at the pairs one by one.
        for k in 0..self.states() as usize {
            lower |= is_lower(
                top,
                known,
                self.entries[others + k],
                self.entries[heads + k],
            );
        }
        lower
    }
}
