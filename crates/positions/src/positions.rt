// Sets of positions.
ghost use Rattle.std.specs.Prelude.{◌≡◌, length};

use model::NumberSet;

// For each watcher state the set of states. A `TripleSet` of one first number alone would have sixteen times the rows, and
// one type of rows for both would share little: the one holds pairs, the other triples.
#[derive(Drop)]
pub struct Positions {
    rows: [NumberSet; 32],
    ghost all_rows: { length rows ≡ 32 },
}

mod methods;
