// Two states, and the entry of a fact between them. A span has no table, and so cannot say that its states are of the scope;
// the entry has its bounds where they are needed, since `reach` makes spans of any entry.
#[derive(Clone, Copy, PartialEq, Eq, Debug)]
pub struct Span {
    pub from: u8,
    pub to: u8,
    pub worth: u32,
}
