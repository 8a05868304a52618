// Paths: shortest ones, none, and those that are too long.
use crate::languages::{Oversized, ab, circles, crowded, doubling, empty_circles};
use crate::memory::{Desk, Parts, sevens, table};
use crate::report::Report;
use crate::sheets::marks;
use crate::workshop::{basics, dense, spinning, workshop};
use kinds::Brackets;
use model::Refusal;
use sheet::Sheet;

pub fn counted(report: &mut Report) -> anyhow::Result<()> {
    report.heading("paths to proposition 0 by as many actions 1 as 0 before")?;
    let model = workshop()?;
    let both = ab()?;
    let mut sheet = Sheet::open(&model);
    basics(&mut sheet)?;
    let question = Parts { guard: 2, goal: 0 };
    let mut desk = Desk::new(report.heap(), 48, 12, 12)?;
    let found = desk.path(&sheet, question, &both, 2);
    report.compare("from 2", found, Ok(None))?;
    report.number("step list as it was", desk.untouched(), 12)?;
    let found = desk.path(&sheet, question, &both, 1);
    report.compare("from 1", found, Ok(Some(6)))?;
    report.number("later steps as they were", desk.untouched(), 6)?;
    let found = desk.path(&sheet, question, &both, 0);
    report.compare("from 0", found, Ok(Some(12)))?;
    report.number("steps of action 0", desk.leading(0, 0), 6)?;
    report.number("then steps of action 1", desk.leading(6, 1), 6)?;
    let mut short = Desk::new(report.heap(), 48, 12, 11)?;
    let found = short.path(&sheet, question, &both, 0);
    report.compare("from 0, 11 places", found, Err(Refusal::PathTooLong))?;
    report.number("step list as it was", short.untouched(), 11)?;
    Ok(())
}

pub fn bracketed(report: &mut Report) -> anyhow::Result<()> {
    report.heading("paths to proposition 1 by brackets")?;
    let model = workshop()?;
    let brackets = Brackets::new(0, 1, 2)?;
    let mut sheet = Sheet::open(&model);
    basics(&mut sheet)?;
    let question = Parts { guard: 2, goal: 4 };
    let mut desk = Desk::new(report.heap(), 48, 12, 12)?;
    let found = desk.path(&sheet, question, &brackets, 1);
    report.compare("from 1", found, Ok(Some(10)))?;
    let found = desk.path(&sheet, question, &brackets, 3);
    report.compare("from 3", found, Ok(Some(0)))?;
    Ok(())
}

pub fn circling(report: &mut Report) -> anyhow::Result<()> {
    report.heading("paths by rules that go in circles")?;
    let model = workshop()?;
    let ring = circles()?;
    let still = empty_circles()?;
    let mut sheet = Sheet::open(&model);
    basics(&mut sheet)?;
    let marked = Parts { guard: 2, goal: 4 };
    let mut desk = Desk::new(report.heap(), 64, 12, 12)?;
    let found = desk.path(&sheet, Parts { guard: 2, goal: 1 }, &ring, 1);
    report.compare("letters, from 1", found, Ok(Some(2)))?;
    let found = desk.path(&sheet, marked, &ring, 2);
    report.compare("letters, from 2", found, Ok(Some(1)))?;
    let found = desk.path(&sheet, marked, &ring, 0);
    report.compare("letters, from 0", found, Ok(None))?;
    let found = desk.path(&sheet, marked, &still, 3);
    report.compare("empty words, from 3", found, Ok(Some(0)))?;
    let found = desk.path(&sheet, marked, &still, 0);
    report.compare("empty words, from 0", found, Ok(None))?;
    Ok(())
}

pub fn refused(report: &mut Report) -> anyhow::Result<()> {
    report.heading("paths that are refused, each for the first of its causes")?;
    let model = workshop()?;
    let both = ab()?;
    let three = Brackets::new(0, 1, 3)?;
    let sheet = Sheet::open(&model);
    let question = Parts { guard: 0, goal: 0 };
    let mut desk = Desk::new(report.heap(), 47, 2, 3)?;
    let found = desk.path(&sheet, question, &three, 4);
    report.compare("from state 4", found, Err(Refusal::NoSuchState))?;
    let found = desk.path(&sheet, question, &three, 3);
    report.compare(
        "a language over three actions",
        found,
        Err(Refusal::OtherAlphabet),
    )?;
    let found = desk.path(&sheet, question, &Oversized, 3);
    report.compare("17 symbols", found, Err(Refusal::TooLarge))?;
    let found = desk.path(&sheet, question, &both, 3);
    report.compare("a work table of 47", found, Err(Refusal::WorkTooShort))?;
    report.number("work table as it was", sevens(&desk.work), 47)?;
    report.number("waiting memory as it was", desk.unused(), 2)?;
    report.number("step list as it was", desk.untouched(), 3)?;
    Ok(())
}

pub fn unserved(report: &mut Report) -> anyhow::Result<()> {
    report.heading("paths that are refused with a work table of 48")?;
    let model = workshop()?;
    let both = ab()?;
    let sheet = Sheet::open(&model);
    let question = Parts { guard: 0, goal: 0 };
    let mut desk = Desk::new(report.heap(), 48, 2, 3)?;
    let found = desk.path(&sheet, question, &both, 3);
    report.compare(
        "waiting memory shorter than the step list",
        found,
        Err(Refusal::MemoryTooShort),
    )?;
    report.number("work table as it was", sevens(&desk.work), 48)?;
    report.number("waiting memory as it was", desk.unused(), 2)?;
    report.number("step list as it was", desk.untouched(), 3)?;
    let mut even = Desk::new(report.heap(), 48, 3, 3)?;
    let found = even.path(&sheet, question, &both, 3);
    report.compare(
        "a question that is not made",
        found,
        Err(Refusal::NoSuchQuestion),
    )?;
    report.number("work table as it was", sevens(&even.work), 48)?;
    report.number("waiting memory as it was", even.unused(), 3)?;
    report.number("step list as it was", even.untouched(), 3)?;
    Ok(())
}

pub fn long(report: &mut Report) -> anyhow::Result<()> {
    report.heading("paths of 4,096 steps and of one more")?;
    let model = spinning()?;
    let full = doubling(12, 0)?;
    let more = doubling(12, 1)?;
    let mut sheet = Sheet::open(&model);
    basics(&mut sheet)?;
    let question = Parts { guard: 0, goal: 0 };
    let mut desk = Desk::new(report.heap(), 14, 4200, 4200)?;
    let found = desk.path(&sheet, question, &more, 0);
    report.compare("4,097 steps", found, Err(Refusal::PathTooLong))?;
    report.number("step list as it was", desk.untouched(), 4200)?;
    let found = desk.path(&sheet, question, &full, 0);
    report.compare("4,096 steps", found, Ok(Some(4096)))?;
    report.number("steps of action 0", desk.leading(0, 0), 4096)?;
    report.number("later steps as they were", desk.untouched(), 104)?;
    Ok(())
}

pub fn large(report: &mut Report) -> anyhow::Result<()> {
    report.heading("32 states, 256 edges, 16 symbols and 128 rules")?;
    let model = dense()?;
    let rules = crowded()?;
    let mut sheet = Sheet::open(&model);
    basics(&mut sheet)?;
    let mut work = table(report.heap(), 16384)?;
    let found = sheet.until(2, 4, &rules, &mut work);
    report.compare("the until has the number", found, Ok(5))?;
    report.compare("its marks", marks(&sheet, 5), Ok(4294967295))?;
    let question = Parts { guard: 2, goal: 4 };
    let mut desk = Desk::new(report.heap(), 16384, 64, 64)?;
    let found = desk.path(&sheet, question, &rules, 31);
    report.compare("path from 31", found, Ok(Some(2)))?;
    let found = desk.path(&sheet, question, &rules, 0);
    report.compare("path from 0", found, Ok(Some(1)))?;
    Ok(())
}
