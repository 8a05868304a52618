// A symbol, a from-state and a to-state: some guarded path between the two has a word that the symbol derives.
// A fact has no table, and so cannot say that it is of the scope: each contract that has a table says so.
#[derive(Clone, Copy, PartialEq, Eq, Debug)]
pub struct Fact {
    pub symbol: u8,
    pub from: u8,
    pub to: u8,
}
