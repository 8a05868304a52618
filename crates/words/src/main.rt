// Works some words of each kind of language, and compares what was found with what is expected.
#![tactic(auto)]

mod checks;
mod failure;
mod finding;
mod samples;
mod wide;
mod working;

use crate::checks::Checks;
use crate::failure::Failure;

fn main(rt: HostRuntime) -> Result<(), Failure> {
    let mut checks = Checks::new(&rt);
    working::watchers(&mut checks)?;
    working::grammar(&mut checks)?;
    working::automaton(&mut checks)?;
    working::brackets(&mut checks)?;
    working::wide(&mut checks)?;
    checks.close()
}
