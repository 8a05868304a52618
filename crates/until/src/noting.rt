// The work table: for each fact the round in which it came. A set of triples does not know the layout: that its facts lie
// in it is asked.
ghost use Rattle.std.specs.Prelude.{◌≡◌, ℕ, ◌+◌, ◌*◌, ◌/◌, ◌<◌, ◌≤◌, length};
ghost use Rattle.model.specs.Sets.{Has};
ghost use Rattle.logic.specs.Layouts.{spot};
ghost use Rattle.until.specs.Notes.{Written};
ghost use Rattle.triples.specs.Triples.{Holds, TriplesBelow};

use logic::Layout;
use model::NumberSet;
use triples::TripleSet;

// Clears the places below `cells`.
pub(crate) fn clear(work: &mut [u32], cells: usize)
    requires { cells ≤ length work.old }
    ensures { Written (λ k. k < cells) 0 work.old work.new }
{
    work[..cells].fill(0);
}

// Writes the round at the places of a row's facts, which begin at `base`.
fn note_row(work: &mut [u32], row: NumberSet, base: usize, round: u32)
    requires { (t : ℕ) → Has row t → base + t < length work.old }
    ensures { Written (λ k. (t : ℕ) × (k ≡ base + t) × Has row t) round work.old work.new }
{
    let mut rest = row;
    while let Some(to) = rest.take_last() {
        work[base + to as usize] = round;
    }
}

// Writes the round at the places of a symbol's facts.
fn note_symbol(work: &mut [u32], fresh: &TripleSet, symbol: u8, layout: Layout, round: u32)
    requires symbol { symbol < layout.symbols }
    requires below { TriplesBelow layout.symbols layout.states (Holds fresh.now.rows) }
    requires room { layout.symbols * layout.states * layout.states ≤ length work.old }
    ensures { Written (λ k. (k / layout.states / layout.states ≡ symbol) × Holds fresh.now.rows (spot layout.states k)) round work.old work.new }
{
    for from in 0..layout.states {
        let base = layout.row(symbol, from);
        note_row(work, fresh.row(symbol, from), base, round);
    }
}

// Writes the round at the place of each fresh fact, and leaves every other place as it is.
pub(crate) fn note(work: &mut [u32], fresh: &TripleSet, layout: Layout, round: u32)
    requires below { TriplesBelow layout.symbols layout.states (Holds fresh.now.rows) }
    requires room { layout.symbols * layout.states * layout.states ≤ length work.old }
    ensures { Written (λ k. Holds fresh.now.rows (spot layout.states k)) round work.old work.new }
{
    for symbol in 0..layout.symbols {
        note_symbol(work, fresh, symbol, layout, round);
    }
}
