// Works the cases of the workshop model and the limits of drafts and sheets, and prints each beside what is expected.
#![tactic(auto)]

mod drafts;
mod languages;
mod memory;
mod paths;
mod releases;
mod report;
mod sheets;
mod untils;
mod workshop;

use report::Report;

fn main(rt: HostRuntime) -> anyhow::Result<()> {
    let mut report = Report::new(&rt);
    drafts::sizes(&mut report)?;
    drafts::edges(&mut report)?;
    drafts::labels(&mut report)?;
    sheets::booleans(&mut report)?;
    sheets::refusals(&mut report)?;
    sheets::limits(&mut report)?;
    untils::marked(&mut report)?;
    untils::refused(&mut report)?;
    untils::full(&mut report)?;
    paths::counted(&mut report)?;
    paths::bracketed(&mut report)?;
    paths::circling(&mut report)?;
    paths::refused(&mut report)?;
    paths::unserved(&mut report)?;
    paths::long(&mut report)?;
    paths::large(&mut report)?;
    releases::marked(&mut report)?;
    releases::stopped(&mut report)?;
    releases::nested(&mut report)?;
    releases::refused(&mut report)?;
    report.close()
}
