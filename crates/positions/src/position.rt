// A state and a watcher state. Their bounds stand in contracts: as facts of the type they would ask more of whoever lends
// waiting memory.
#[derive(Clone, Copy, PartialEq, Eq, Debug)]
pub struct Position {
    pub state: u8,
    pub watch: u8,
}
