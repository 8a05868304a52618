// Counts what was compared, and what differed.
ghost use Rattle.std.specs.Prelude.{◌≡◌, OnOk};
ghost use Rattle.words.specs.Counting.{Noted};

use crate::failure::Failure;
use crate::finding::Finding;
use model::Refusal;
use std::io;

// The program `cases` has a report of its own kind: a crate for both programs would be longer than what stands twice.
#[derive(Drop)]
pub struct Checks<'a> {
    rt: &'a HostRuntime,
    made: u32,
    different: u32,
}

impl<'a> Checks<'a> {
    pub fn new(rt: &'a HostRuntime) -> Checks<'a>
        ensures { result.different ≡ 0 }
    {
        Checks {
            rt,
            made: 0,
            different: 0,
        }
    }

    // Prints what was found of a word beside what is expected, and counts a difference.
    pub fn note(
        &mut self,
        kind: &str,
        word: &[u8],
        found: Result<bool, Refusal>,
        expected: Result<bool, Refusal>,
    ) -> io::Result<()>
        ensures { Noted self.old.different self.new.different found expected }
    {
        self.made = self.made.saturating_add(1);
        if found != expected {
            self.different = self.different.saturating_add(1);
        }
        let (found, expected) = (Finding(found), Finding(expected));
        println!(self.rt; "{kind}: {word:?} is {found}, expected {expected}")
    }

    // Prints the counts; a difference is an error.
    pub fn close(&self) -> Result<(), Failure>
        ensures { OnOk result (self.now.different ≡ 0) }
    {
        let (made, different) = (self.made, self.different);
        println!(self.rt; "{made} words, {different} differences")?;
        if different > 0 {
            return Err(Failure::Different(different));
        }
        Ok(())
    }
}
