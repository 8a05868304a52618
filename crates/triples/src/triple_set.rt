// Sets of triples of numbers.
ghost use Rattle.std.specs.Prelude.{◌≡◌, ℕ, ◌<◌, ◌≤◌, ◌≢◌, MatchBool, length, slice_index_or};
ghost use Rattle.model.specs.declared.number_set.NumberSet.{NumberSet};
ghost use Rattle.model.specs.Relations.{Joined, Exactly, Triple};
ghost use Rattle.model.specs.Sets.{Has, nothing};
ghost use Rattle.triples.specs.Triples.{row_of, Holds, size, InRow, Through, Lacking, Apart};

use crate::numbers::passing;
use model::NumberSet;

// Triples with a first number below 16 and the others below 32: for each first and second number the set of the third.
// Their methods ask for such numbers: symbols, states and actions come as `u8`, below their bounds by the facts of other
// types, and a number with its bound would be made anew at each call. The rows stand in one array, since whole sets are
// joined and counted row by row.
#[derive(Clone, Copy)]
pub struct TripleSet {
    rows: [NumberSet; 512],
    ghost long: { length rows ≡ 512 },
}

impl TripleSet {
    // The set with no triple.
    pub fn empty() -> TripleSet
        ensures none { (p : Triple) → Holds result.rows p → ⊥ }
        ensures size { size result.rows 512 ≡ 0 }
    {
        TripleSet {
            rows: [NumberSet::empty(); 512],
        }
    }

    // The third numbers of a first and a second.
    pub fn row(&self, first: u8, second: u8) -> NumberSet
        requires first { first < 16 }
        requires second { second < 32 }
        ensures { result ≡ row_of self.now.rows first second }
    {
        self.rows[first as usize * 32 + second as usize]
    }

    // Adds the triples of a first and a second number with each third of `more`.
    pub fn add(&mut self, first: u8, second: u8, more: NumberSet)
        requires first { first < 16 }
        requires second { second < 32 }
        ensures { Joined (Holds self.old.rows) (Holds self.new.rows) (InRow first second (Has more)) }
    {
        let row = self.row(first, second).union(more);
        self.rows[first as usize * 32 + second as usize] = row;
    }

    // The second numbers that stand with a first.
    pub fn seconds(&self, first: u8) -> NumberSet
        requires { first < 16 }
        ensures { Exactly (Has result) (λ s. (s < 32) × (row_of self.now.rows first s ≢ nothing)) }
    {
        passing(32, |second| !self.row(first, second).is_empty())
    }

    // The first numbers that have a triple.
    pub fn firsts(&self) -> NumberSet
        ensures { Exactly (Has result) (λ x. (x < 16) × (s : ℕ) × (s < 32) × (row_of self.now.rows x s ≢ nothing)) }
    {
        passing(16, |first| !self.seconds(first).is_empty())
    }

    // Adds to `reached` the third numbers that stand with a first and some second of `from`.
    pub fn through(&self, reached: NumberSet, from: NumberSet, first: u8) -> NumberSet
        requires { first < 16 }
        ensures { Joined (Has reached) (Has result) (Through (Has from) (Holds self.now.rows) first) }
    {
        let mut found = reached;
        let mut rest = from;
        while let Some(second) = rest.take_last() {
            found = found.union(self.row(first, second));
        }
        found
    }

    // How many triples there are.
    pub fn count(&self) -> u32
        ensures size { result ≡ size self.now.rows 512 }
        ensures most { result ≤ 16384 }
    {
        self.rows.iter().map(|row| row.count()).sum()
    }

    // Whether both have the same rows; it stops at the first that differs. Of that row it says that it fits into 32 bits,
    // which a derived `==` would not: by that `fill` of `chart` ends.
    pub fn same(&self, other: &TripleSet) -> bool
        ensures { MatchBool result (self.now.rows ≡ other.now.rows) (Apart self.now.rows other.now.rows) }
    {
        for place in 0..512usize {
            if self.rows[place].bits() != other.rows[place].bits() {
                return false;
            }
        }
        true
    }

    // Adds every triple of `other`.
    pub fn include(&mut self, other: &TripleSet)
        ensures { Joined (Holds self.old.rows) (Holds self.new.rows) (Holds other.now.rows) }
    {
        self.step_rows(other, NumberSet::union);
    }

    // The triples that `other` lacks.
    pub fn without(&self, other: &TripleSet) -> TripleSet
        ensures { Exactly (Holds result.rows) (Lacking (Holds self.now.rows) (Holds other.now.rows)) }
    {
        let mut left = *self;
        left.step_rows(other, NumberSet::without);
        left
    }

    // Puts in place of each row what the step gives of it and of the row at its place in `other`. The rows go by place:
    // after a loop over a `zip` of `iter_mut` nothing would be known of them.
    fn step_rows<F: Fn(NumberSet, NumberSet) -> NumberSet>(&mut self, other: &TripleSet, step: F)
        requires { (x : NumberSet) (y : NumberSet) → F.pre step x y }
        ensures { (k : ℕ) → k < 512 → F.post step (slice_index_or self.old.rows k nothing) (slice_index_or other.now.rows k nothing) (slice_index_or self.new.rows k nothing) }
    {
        for (place, row) in self.rows.iter_mut().enumerate() {
            *row = step(*row, other.rows[place]);
        }
    }
}
