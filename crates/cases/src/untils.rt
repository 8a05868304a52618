// Untils: which states have a good path.
use crate::languages::{Oversized, ab, nothing_said};
use crate::memory::{sevens, table};
use crate::report::Report;
use crate::sheets::compare_marks;
use crate::workshop::{basics, workshop};
use kinds::Brackets;
use model::Refusal;
use sheet::Sheet;

pub fn marked(report: &mut Report) -> anyhow::Result<()> {
    report.heading("untils on the workshop model")?;
    let model = workshop()?;
    let both = ab()?;
    let empty = nothing_said()?;
    let brackets = Brackets::new(0, 1, 2)?;
    let mut sheet = Sheet::open(&model);
    basics(&mut sheet)?;
    let mut work = table(report.heap(), 48)?;
    report.compare(
        "until yes, proposition 0, AB has the number",
        sheet.until(2, 0, &both, &mut work),
        Ok(5),
    )?;
    report.compare(
        "until proposition 0, proposition 0, AB has the number",
        sheet.until(0, 0, &both, &mut work),
        Ok(6),
    )?;
    report.compare(
        "until no, proposition 0, the empty word has the number",
        sheet.until(3, 0, &empty, &mut work),
        Ok(7),
    )?;
    report.compare(
        "until yes, proposition 1, brackets 0 and 1 has the number",
        sheet.until(2, 4, &brackets, &mut work),
        Ok(8),
    )?;
    let cases = [
        ("marks of until yes, proposition 0, AB", 5, 3),
        ("marks of until proposition 0, proposition 0, AB", 6, 0),
        ("marks of until no, proposition 0, the empty word", 7, 1),
        ("marks of until yes, proposition 1, brackets 0 and 1", 8, 11),
    ];
    compare_marks(report, &sheet, &cases)
}

pub fn refused(report: &mut Report) -> anyhow::Result<()> {
    report.heading("untils that are refused, with a work table of sevens")?;
    let model = workshop()?;
    let both = ab()?;
    let three = Brackets::new(0, 1, 3)?;
    let mut sheet = Sheet::open(&model);
    basics(&mut sheet)?;
    let mut work = table(report.heap(), 47)?;
    report.compare(
        "brackets over three actions",
        sheet.until(9, 9, &three, &mut work),
        Err(Refusal::OtherAlphabet),
    )?;
    report.compare(
        "17 symbols",
        sheet.until(9, 9, &Oversized, &mut work),
        Err(Refusal::TooLarge),
    )?;
    report.compare(
        "AB with a work table of 47",
        sheet.until(9, 9, &both, &mut work),
        Err(Refusal::WorkTooShort),
    )?;
    report.number("sevens left in the work table", sevens(&work), 47)?;
    let mut long = table(report.heap(), 48)?;
    for (what, guard, goal) in [("AB, guard not made", 5, 0), ("AB, goal not made", 0, 5)] {
        let found = sheet.until(guard, goal, &both, &mut long);
        report.compare(what, found, Err(Refusal::NoSuchQuestion))?;
    }
    report.number("sevens left in the work table", sevens(&long), 48)?;
    report.compare(
        "AB with a work table of 48",
        sheet.until(0, 0, &both, &mut long),
        Ok(5),
    )?;
    report.number("questions on the sheet", sheet.len(), 6)?;
    Ok(())
}

pub fn full(report: &mut Report) -> anyhow::Result<()> {
    report.heading("untils on 64 questions, with a work table of sevens")?;
    let model = workshop()?;
    let both = ab()?;
    let mut sheet = Sheet::open(&model);
    for _ in 0..64 {
        sheet.proposition(0)?;
    }
    let mut work = table(report.heap(), 48)?;
    for (what, guard, expected) in [
        ("guard not made", 64, Err(Refusal::NoSuchQuestion)),
        ("one more question", 63, Err(Refusal::SheetFull)),
    ] {
        report.compare(what, sheet.until(guard, 0, &both, &mut work), expected)?;
    }
    report.number("sevens left in the work table", sevens(&work), 48)?;
    report.number("questions on the sheet", sheet.len(), 64)?;
    Ok(())
}
