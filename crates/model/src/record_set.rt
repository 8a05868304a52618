// Sets of records in fixed memory.
ghost use Rattle.std.specs.Prelude.{◌≡◌, ◌≤◌, [], length, Decides, MatchResult};
ghost use Rattle.std.specs.List.{slice_get};
ghost use Rattle.model.specs.Refusals.{refusal};
ghost use Rattle.model.specs.Relations.{Among, IsDistinct};

use crate::record::Record;
use crate::refusal::Refusal;
use arrayvec::ArrayVec;

// Records in the order in which they were added, no two of them equal, and at most N.
#[derive(Drop)]
pub struct RecordSet<T, const N: usize> {
    records: ArrayVec<T, N>,
    ghost few: { length records.items ≤ N },
    ghost distinct: { IsDistinct records.items },
}

impl<T: Record, const N: usize> RecordSet<T, N> {
    ghost use Rattle.model.specs.RecordSets.{records_of, CauseAdd, AfterAdd};

    // No record.
    pub fn new() -> Self
        ensures { records_of result ≡ [] }
    {
        RecordSet {
            records: ArrayVec::new(),
        }
    }

    // The records, in the order in which they were added.
    pub fn as_slice(&self) -> &[T]
        ensures { result.now ≡ records_of self.now }
    {
        self.records.as_slice()
    }

    // How many records there are.
    pub fn len(&self) -> usize
        ensures count { result ≡ length (records_of self.now) }
        ensures most { result ≤ N }
    {
        self.records.len()
    }

    // The record at a place; none past the end.
    pub fn get(&self, place: usize) -> Option<T>
        ensures { result ≡ slice_get (records_of self.now) place }
    {
        self.as_slice().get(place).copied()
    }

    // Whether the record is there.
    pub fn contains(&self, item: &T) -> bool
        ensures { Decides result (Among item.now (records_of self.now)) }
    {
        self.as_slice().contains(item)
    }

    // Adds a record at the end; one that is there already stays as it is, and a full set takes no other.
    pub fn add(&mut self, item: T) -> Result<(), Refusal>
        ensures cause { CauseAdd N (records_of self.old) item (refusal result) }
        ensures after { MatchResult result (λ _. AfterAdd (records_of self.old) (records_of self.new) item) (λ _. self.new ≡ self.old) }
    {
        if self.contains(&item) {
            return Ok(());
        }
        if self.records.is_full() {
            return Err(Refusal::TableFull);
        }
        self.records.push(item);
        Ok(())
    }
}
