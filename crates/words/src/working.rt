// The words of each kind that are worked.
use crate::checks::Checks;
use crate::failure::Failure;
use crate::samples;
use crate::wide::Wide;
use chart::derives;
use model::Refusal;
use watchers::accepts;

// A word, and whether it is in the language or why the question is refused.
type Case<'a> = (&'a [u8], Result<bool, Refusal>);

// Compares what `ask` finds of each word with what is expected of it.
fn compare<F: Fn(&[u8]) -> Result<bool, Refusal>>(
    checks: &mut Checks,
    kind: &str,
    cases: &[Case],
    ask: F,
) -> Result<(), Failure>
    requires { F.IsAlwaysCallable ask }
{
    for (word, expected) in cases {
        checks.note(kind, word, ask(word), *expected)?;
    }
    Ok(())
}

pub fn watchers(checks: &mut Checks) -> Result<(), Failure> {
    let steps = samples::steps()?;
    let cases: [Case; 5] = [
        (&[0], Ok(true)),
        (&[1, 0, 1, 0], Ok(true)),
        (&[], Ok(false)),
        (&[0, 1, 0], Ok(false)),
        (&[2], Ok(false)),
    ];
    compare(checks, "steps", &cases, |word| accepts(&steps, word))?;
    let last_one = samples::last_one()?;
    let cases: [Case; 5] = [
        (&[1], Ok(true)),
        (&[0, 1, 1], Ok(true)),
        (&[], Ok(false)),
        (&[1, 0], Ok(false)),
        (&[2, 1], Ok(false)),
    ];
    compare(checks, "table", &cases, |word| accepts(&last_one, word))
}

pub fn grammar(checks: &mut Checks) -> Result<(), Failure> {
    let grammar = samples::equal_runs()?;
    let cases: [Case; 6] = [
        (&[0, 1], Ok(true)),
        (&[0, 0, 0, 1, 1, 1], Ok(true)),
        (&[], Ok(false)),
        (&[0, 0, 1], Ok(false)),
        (&[1, 0], Ok(false)),
        (&[0; 32], Err(Refusal::OutOfRange)),
    ];
    compare(checks, "grammar", &cases, |word| derives(&grammar, word))
}

pub fn automaton(checks: &mut Checks) -> Result<(), Failure> {
    let automaton = samples::last_but_one()?;
    let cases: [Case; 5] = [
        (&[1, 0], Ok(true)),
        (&[1, 0, 0, 1, 1], Ok(true)),
        (&[], Ok(false)),
        (&[1], Ok(false)),
        (&[1, 1, 0, 1], Ok(false)),
    ];
    compare(
        checks,
        "automaton",
        &cases,
        |word| derives(&automaton, word),
    )
}

pub fn brackets(checks: &mut Checks) -> Result<(), Failure> {
    let brackets = samples::brackets()?;
    let cases: [Case; 7] = [
        (&[], Ok(true)),
        (&[0, 1], Ok(true)),
        (&[2, 0, 0, 2, 1, 0, 1, 1, 2], Ok(true)),
        (&[1, 0], Ok(false)),
        (&[0, 0, 1], Ok(false)),
        (&[0, 1, 1, 0], Ok(false)),
        (&[0, 3, 1], Ok(false)),
    ];
    compare(checks, "brackets", &cases, |word| derives(&brackets, word))
}

pub fn wide(checks: &mut Checks) -> Result<(), Failure> {
    let cases: [Case; 1] = [(&[0], Err(Refusal::TooLarge))];
    compare(checks, "17 symbols", &cases, |word| derives(&Wide, word))
}
