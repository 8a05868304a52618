// Counts what was compared, and prints each comparison.
use anyhow::bail;
use model::Refusal;
use std::alloc::Global;
use std::{fmt, io};

// What a call can answer, as it is printed. A trait of ours beside `Display`, which nobody but std can give to `()` and
// `Option`.
pub trait Answer: PartialEq + Drop {
    fn show<W: fmt::Write>(&self, f: &mut fmt::Formatter<W>) -> fmt::Result;
}

// No more than that the call was accepted.
impl Answer for () {
    fn show<W: fmt::Write>(&self, f: &mut fmt::Formatter<W>) -> fmt::Result {
        write!(f, "accepted")
    }
}

// A count, the number of a question, or marks as the sum of 2^s.
impl Answer for usize {
    fn show<W: fmt::Write>(&self, f: &mut fmt::Formatter<W>) -> fmt::Result {
        write!(f, "{self}")
    }
}

// How many steps a path has, if there is one.
impl Answer for Option<usize> {
    fn show<W: fmt::Write>(&self, f: &mut fmt::Formatter<W>) -> fmt::Result {
        match self {
            Some(steps) => write!(f, "{steps}"),
            None => write!(f, "none"),
        }
    }
}

// What came of a call.
#[derive(Drop)]
struct Outcome<T>(Result<T, Refusal>);

impl<T: Answer> fmt::Display for Outcome<T> {
    fn fmt<W: fmt::Write>(&self, f: &mut fmt::Formatter<W>) -> fmt::Result {
        match &self.0 {
            Ok(answer) => answer.show(f),
            Err(refusal) => write!(f, "refused with {refusal}"),
        }
    }
}

// The program `words` has checks of its own kind: a crate for both programs would be longer than what stands twice.
#[derive(Drop)]
pub struct Report<'a> {
    rt: &'a HostRuntime,
    cases: u32,
    differences: u32,
}

impl<'a> Report<'a> {
    pub fn new(rt: &'a HostRuntime) -> Report<'a> {
        Report {
            rt,
            cases: 0,
            differences: 0,
        }
    }

    // The allocator, for memory that the cases lend.
    pub fn heap(&self) -> Global {
        self.rt.alloc()
    }

    // What the next comparisons are about.
    pub fn heading(&self, text: &str) -> io::Result<()> {
        println!(self.rt; "{text}")
    }

    // Prints what came of a call beside what is expected.
    pub fn compare<T: Answer>(
        &mut self,
        what: &str,
        found: Result<T, Refusal>,
        expected: Result<T, Refusal>,
    ) -> io::Result<()> {
        self.cases = self.cases.saturating_add(1);
        if found != expected {
            self.differences = self.differences.saturating_add(1);
            print!(self.rt; "DIFFERS: ")?;
        }
        let (found, expected) = (Outcome(found), Outcome(expected));
        println!(self.rt; "{what}: {found}, expected {expected}")
    }

    // Prints a number beside what is expected.
    pub fn number(&mut self, what: &str, found: usize, expected: usize) -> io::Result<()> {
        self.compare(what, Ok(found), Ok(expected))
    }

    // Prints how many comparisons there were; a difference is an error.
    pub fn close(&self) -> anyhow::Result<()> {
        let (cases, differences) = (self.cases, self.differences);
        println!(self.rt; "{cases} cases, {differences} differences")?;
        if differences > 0 {
            bail!("a case differs from what is expected");
        }
        Ok(())
    }
}
