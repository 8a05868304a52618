// What sheets answer and refuse.
use crate::report::Report;
use crate::workshop::{still, workshop};
use model::Refusal;
use sheet::Sheet;

// The marks of question q as the sum of 2^s.
pub fn marks(sheet: &Sheet, q: usize) -> Result<usize, Refusal> {
    Ok(sheet.marks(q)?.bits() as usize)
}

// Compares the marks of questions, each as the sum of 2^s.
pub fn compare_marks(
    report: &mut Report,
    sheet: &Sheet,
    cases: &[(&str, usize, usize)],
) -> anyhow::Result<()> {
    for (what, q, states) in cases {
        report.compare(what, marks(sheet, *q), Ok(*states))?;
    }
    Ok(())
}

pub fn booleans(report: &mut Report) -> anyhow::Result<()> {
    report.heading("questions about the workshop model, marks as the sum of 2^s")?;
    let model = workshop()?;
    let mut sheet = Sheet::open(&model);
    report.compare("proposition 0 has the number", sheet.proposition(0), Ok(0))?;
    report.compare("not question 0 has the number", sheet.not(0), Ok(1))?;
    report.compare("question 0 or 1 has the number", sheet.or(0, 1), Ok(2))?;
    report.compare("not question 2 has the number", sheet.not(2), Ok(3))?;
    report.compare("proposition 1 has the number", sheet.proposition(1), Ok(4))?;
    let cases = [
        ("marks of proposition 0", 0, 1),
        ("marks of not proposition 0", 1, 14),
        ("marks of yes", 2, 15),
        ("marks of no", 3, 0),
        ("marks of proposition 1", 4, 8),
    ];
    compare_marks(report, &sheet, &cases)
}

pub fn refusals(report: &mut Report) -> anyhow::Result<()> {
    report.heading("questions that are refused")?;
    let missing = Err(Refusal::NoSuchQuestion);
    let model = still();
    let mut sheet = Sheet::open(&model);
    report.compare("marks on an empty sheet", marks(&sheet, 0), missing)?;
    report.compare("proposition 31", sheet.proposition(31), Ok(0))?;
    report.compare(
        "proposition 32",
        sheet.proposition(32),
        Err(Refusal::NoSuchProposition),
    )?;
    report.compare("not question 1", sheet.not(1), missing)?;
    report.compare("question 0 or 1", sheet.or(0, 1), missing)?;
    report.compare("question 1 or 0", sheet.or(1, 0), missing)?;
    report.compare("marks of question 1", marks(&sheet, 1), missing)?;
    report.number("questions on the sheet", sheet.len(), 1)?;
    report.compare("marks of question 0", marks(&sheet, 0), Ok(0))?;
    Ok(())
}

pub fn limits(report: &mut Report) -> anyhow::Result<()> {
    report.heading("64 questions")?;
    let full = Err(Refusal::SheetFull);
    let model = still();
    let mut sheet = Sheet::open(&model);
    for _ in 0..64 {
        sheet.proposition(0)?;
    }
    report.number("questions on the sheet", sheet.len(), 64)?;
    report.compare("one more proposition", sheet.proposition(0), full)?;
    report.compare(
        "proposition 32",
        sheet.proposition(32),
        Err(Refusal::NoSuchProposition),
    )?;
    report.compare("not question 63", sheet.not(63), full)?;
    report.compare(
        "not question 64",
        sheet.not(64),
        Err(Refusal::NoSuchQuestion),
    )?;
    report.compare("question 0 or 63", sheet.or(0, 63), full)?;
    report.number("questions on the sheet", sheet.len(), 64)?;
    report.compare("marks of question 63", marks(&sheet, 63), Ok(0))?;
    Ok(())
}
