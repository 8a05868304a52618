// Releases: which states have a maximal path that keeps one.
use crate::languages::{Oversized, ab};
use crate::memory::table;
use crate::report::Report;
use crate::sheets::compare_marks;
use crate::workshop::{basics, still, workshop};
use model::Refusal;
use sheet::Sheet;
use watchers::{StepWatcher, TableWatcher};

pub fn marked(report: &mut Report) -> anyhow::Result<()> {
    report.heading("releases on the workshop model")?;
    let model = workshop()?;
    let even = StepWatcher::new(2, 0, 2)?;
    let odd = StepWatcher::new(2, 1, 2)?;
    let mut sheet = Sheet::open(&model);
    basics(&mut sheet)?;
    report.compare(
        "release no, proposition 0, even lengths has the number",
        sheet.release(3, 0, &even),
        Ok(5),
    )?;
    report.compare(
        "release no, proposition 0, odd lengths has the number",
        sheet.release(3, 0, &odd),
        Ok(6),
    )?;
    report.compare(
        "release proposition 1, no, odd lengths has the number",
        sheet.release(4, 3, &odd),
        Ok(7),
    )?;
    let cases = [
        ("marks of release no, proposition 0, even lengths", 5, 1),
        ("marks of release no, proposition 0, odd lengths", 6, 10),
        ("marks of release proposition 1, no, odd lengths", 7, 8),
    ];
    compare_marks(report, &sheet, &cases)
}

pub fn stopped(report: &mut Report) -> anyhow::Result<()> {
    report.heading("releases on one state without edges")?;
    let model = still();
    let even = StepWatcher::new(2, 0, 1)?;
    let odd = StepWatcher::new(2, 1, 1)?;
    let mut sheet = Sheet::open(&model);
    basics(&mut sheet)?;
    report.compare(
        "release no, no, even lengths has the number",
        sheet.release(3, 3, &even),
        Ok(5),
    )?;
    report.compare(
        "release no, no, odd lengths has the number",
        sheet.release(3, 3, &odd),
        Ok(6),
    )?;
    let cases = [
        ("marks of release no, no, even lengths", 5, 0),
        ("marks of release no, no, odd lengths", 6, 1),
    ];
    compare_marks(report, &sheet, &cases)
}

// A watcher of two states that marks the words in which action 1 has occurred.
fn after_action_1() -> Result<TableWatcher, Refusal> {
    let mut watcher = TableWatcher::new();
    watcher.size(2, 2)?;
    watcher.set_next(0, 1, 1)?;
    watcher.set_next(1, 0, 1)?;
    watcher.set_next(1, 1, 1)?;
    watcher.mark(1)?;
    Ok(watcher)
}

pub fn nested(report: &mut Report) -> anyhow::Result<()> {
    report.heading("untils and releases in one another, over several languages and watchers")?;
    let model = workshop()?;
    let odd = StepWatcher::new(2, 1, 2)?;
    let after = after_action_1()?;
    let both = ab()?;
    let mut sheet = Sheet::open(&model);
    basics(&mut sheet)?;
    let mut work = table(report.heap(), 48)?;
    report.compare(
        "5: until yes, proposition 0, AB",
        sheet.until(2, 0, &both, &mut work),
        Ok(5),
    )?;
    report.compare(
        "6: release no, question 5, after action 1",
        sheet.release(3, 5, &after),
        Ok(6),
    )?;
    report.compare(
        "7: release question 5, proposition 0, odd lengths",
        sheet.release(5, 0, &odd),
        Ok(7),
    )?;
    report.compare(
        "8: until yes, question 6, AB",
        sheet.until(2, 6, &both, &mut work),
        Ok(8),
    )?;
    report.compare("9: not question 8", sheet.not(8), Ok(9))?;
    let cases = [
        ("marks of question 5", 5, 3),
        ("marks of question 6", 6, 11),
        ("marks of question 7", 7, 11),
        ("marks of question 8", 8, 3),
        ("marks of question 9", 9, 12),
    ];
    compare_marks(report, &sheet, &cases)
}

pub fn refused(report: &mut Report) -> anyhow::Result<()> {
    report.heading("releases that are refused")?;
    let model = workshop()?;
    let three = StepWatcher::new(2, 0, 3)?;
    let even = StepWatcher::new(2, 0, 2)?;
    let mut sheet = Sheet::open(&model);
    report.compare(
        "a watcher over three actions",
        sheet.release(0, 0, &three),
        Err(Refusal::OtherAlphabet),
    )?;
    report.compare(
        "a watcher of 33 states",
        sheet.release(0, 0, &Oversized),
        Err(Refusal::TooLarge),
    )?;
    report.compare(
        "parts that are not made",
        sheet.release(0, 0, &even),
        Err(Refusal::NoSuchQuestion),
    )?;
    for _ in 0..64 {
        sheet.proposition(0)?;
    }
    report.compare(
        "kept part not made, on 64 questions",
        sheet.release(0, 64, &even),
        Err(Refusal::NoSuchQuestion),
    )?;
    report.compare(
        "one more question",
        sheet.release(0, 0, &even),
        Err(Refusal::SheetFull),
    )?;
    report.number("questions on the sheet", sheet.len(), 64)?;
    Ok(())
}
