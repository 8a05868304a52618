// Where facts lie in a table.
ghost use Rattle.std.specs.Prelude.{◌≡◌, ◌+◌, ◌*◌, ◌≤◌};
ghost use Rattle.logic.specs.Layouts.{place};

// For each of the symbols and each from-state as many entries as there are states, one for each to-state. A table stays
// a slice beside it: callers promise what stands in the slice afterwards, which a struct that borrows it would hide.
#[derive(Clone, Copy, PartialEq, Eq, Debug)]
pub struct Layout {
    pub symbols: u8,
    pub states: u8,
    ghost few_symbols: { symbols ≤ 16 },
    ghost few_states: { states ≤ 32 },
}

impl Layout {
    // How many entries there are.
    pub fn entries(self) -> usize
        ensures { result ≡ self.symbols * self.states * self.states }
    {
        self.symbols as usize * self.states as usize * self.states as usize
    }

    // The place of the first entry of a symbol and a from-state.
    pub fn row(self, symbol: u8, from: u8) -> usize
        ensures { result ≡ (symbol * self.states + from) * self.states }
    {
        (symbol as usize * self.states as usize + from as usize) * self.states as usize
    }

    // The place of a fact.
    pub fn cell(self, symbol: u8, from: u8, to: u8) -> usize
        ensures { result ≡ place self.states (symbol, from, to) }
    {
        self.row(symbol, from) + to as usize
    }
}
