ghost use Rattle.std.specs.Prelude.{◌≤◌, length};

// The first `count` slots are in use; the last of them is the top.
// The slots are lent, with a count beside them, since the library crates allocate nothing.
#[derive(Drop)]
pub struct Pile<'a, T> {
    slots: &'a mut [T],
    count: usize,
    ghost within: { count ≤ length slots.now },
}

mod methods;
