use model::NumberSet;

// Where a path is to start, and where it may end. An aim has no table, and so cannot say that its state is of the scope.
#[derive(Clone, Copy, PartialEq, Eq, Debug)]
pub struct Aim {
    pub state: u8,
    pub goal: NumberSet,
}
