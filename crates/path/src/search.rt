// The search for a shortest path into the goal.
// Table and language stand apart in each call: a struct of both would have to say in each contract that the language stays.
// That the scope stays and that a sound table stays sound are two clauses of each turn, since `sought` asks for a sound
// table and says of the second what it comes to. Top and aim stand apart, since `settle` has a top alone.
ghost use Rattle.std.specs.Prelude.{◌≡◌, ℕ, ◌*◌, ◌<◌, ◌≤◌, ◌==◌, ◌&&◌, min, true, not, nat_lt, Decides, length, filter, count_by, IfSome, MatchResult};
ghost use Rattle.std.specs.List.{reduce};
ghost use Rattle.model.specs.Relations.{Exactly};
ghost use Rattle.model.specs.Sets.{Has};
ghost use Rattle.model.specs.declared.refusal.Refusal.TheVariants.{PathTooLong};
ghost use Rattle.least.specs.Entries.{entry_of, In, Sound, Closed};
ghost use Rattle.least.specs.Lowering.{weight};
ghost use Rattle.path.specs.Witnesses.{SomeGoodFor, Shows, Near, Nearest, Best, Far};

use crate::aim::Aim;
use crate::unfolding::unfold;
use language::{Fitting, UntilLanguage};
use least::{Band, Fact, Scope, Table};
use logic::GuardedModel;
use model::{NumberSet, Refusal, Step};

// The entry of symbol 0 from the aim's state to this one.
fn worth_of(table: &Table, aim: Aim, to: u8) -> u32
    requires { In table.now.scope (0, aim.state, to) }
    ensures { result ≡ entry_of table.now (0, aim.state, to) }
{
    table.entry(Fact {
        symbol: 0,
        from: aim.state,
        to,
    })
}

// Whether the state is of the goal, and has an entry of at most the top.
fn is_near(table: &Table, top: u32, aim: Aim, to: u8) -> bool
    requires { In table.now.scope (0, aim.state, to) }
    ensures { Decides result (Near table.now aim.goal aim.state top to) }
{
    let worth = worth_of(table, aim, to);
    aim.goal.has(to) && 0 < worth && worth <= top
}

// The state of the goal with the least entry of symbol 0 from the state, if one has an entry of at most the top.
fn nearest(table: &Table, top: u32, aim: Aim) -> Option<u8>
    requires { In table.now.scope (0, aim.state, aim.state) }
    ensures { Best table.now aim.goal aim.state top table.now.scope.states result }
{
    (0..table.states())
        .filter(|to| is_near(table, top, aim, *to))
        .min_by_key(|to| worth_of(table, aim, *to))
}

// The least entry above the level that is at most the top, if there is one. By `fold`, and below by `sum`: `filter` with
// `min` and with `count` was slower, which shows where the table is long or has few entries (docs/DESIGN-PASS.md).
fn next_level(entries: &[u32], top: u16, level: u32) -> Option<u32>
    ensures above { IfSome result (λ next. (level < next) × (next ≤ top)) }
    ensures least { result ≡ reduce min (filter (λ k. nat_lt level k && not (nat_lt top k)) entries.now) }
{
    let past = top as u32 + 1;
    let next = entries.iter().fold(past, |next, known| {
        if level < *known && *known < next {
            *known
        } else {
            next
        }
    });
    if next < past { Some(next) } else { None }
}

// How many entries are at the level.
fn count_at(entries: &[u32], level: u32) -> usize
    ensures { result ≡ count_by (λ k. k == level) entries.now }
{
    entries
        .iter()
        .map(|known| usize::from(*known == level))
        .sum()
}

// Lowers by all rules with the facts whose entry is the level; says whether there are more of those then.
// Where they are many, sweeping all lower facts as first parts is quicker than taking up each as a second part.
fn sweep_level<L: UntilLanguage>(
    table: &mut Table,
    language: &Fitting<L>,
    top: u16,
    level: u32,
) -> bool
    requires { table.old.scope.symbols ≡ L.symbols language.now }
    ensures same { table.new.scope ≡ table.old.scope }
    ensures sound { Sound (L.rules language.now) table.old → Sound (L.rules language.now) table.new }
    ensures lighter { weight table.new.entries.now ≤ weight table.old.entries.now }
    ensures more { result ≡ true → weight table.new.entries.now < weight table.old.entries.now }
{
    let before = count_at(table.entries(), level);
    let band = if before > 512 {
        Band::Firsts {
            low: 1,
            high: level,
        }
    } else {
        Band::Either {
            low: level,
            high: level,
        }
    };
    let fell = table.sweep(language.rules(), top, band);
    fell && count_at(table.entries(), level) > before
}

// Lowers in the order of the entries, up to the first level at which a state of the goal has an entry, or the top.
fn grow<L: UntilLanguage>(table: &mut Table, language: &Fitting<L>, top: u16, aim: Aim) -> u16
    requires symbols { table.old.scope.symbols ≡ L.symbols language.now }
    requires state { In table.old.scope (0, aim.state, aim.state) }
    ensures same { table.new.scope ≡ table.old.scope }
    ensures sound { Sound (L.rules language.now) table.old → Sound (L.rules language.now) table.new }
    ensures low { result ≤ top }
    ensures level { result < top → (t : ℕ) × Nearest table.new aim.goal aim.state result table.new.scope.states t }
{
    let _ = table.start(language.rules(), top);
    let mut level = 1u32;
    while level < top as u32 {
        if nearest(table, level, aim).is_some() {
            return level as u16;
        }
        if !sweep_level(table, language, top, level) {
            let Some(next) = next_level(table.entries(), top, level) else {
                return top;
            };
            level = next;
        }
    }
    top
}

// Lowers until no rule gives less, as far as entries up to the top go.
fn settle<L: UntilLanguage>(table: &mut Table, language: &Fitting<L>, top: u16)
    requires { table.old.scope.symbols ≡ L.symbols language.now }
    ensures same { table.new.scope ≡ table.old.scope }
    ensures sound { Sound (L.rules language.now) table.old → Sound (L.rules language.now) table.new }
    ensures closed { Closed (L.rules language.now) top table.new }
{
    let band = Band::Firsts {
        low: 1,
        high: top as u32,
    };
    loop {
        let first = table.start(language.rules(), top);
        let second = table.sweep(language.rules(), top, band);
        if !(first | second) {
            return;
        }
    }
}

// Lowers until no rule gives less up to the top, and then finds the nearest state of the goal.
fn settled<L: UntilLanguage>(
    table: &mut Table,
    language: &Fitting<L>,
    top: u16,
    aim: Aim,
) -> Option<u8>
    requires symbols { table.old.scope.symbols ≡ L.symbols language.now }
    requires state { In table.old.scope (0, aim.state, aim.state) }
    ensures same { table.new.scope ≡ table.old.scope }
    ensures sound { Sound (L.rules language.now) table.old → Sound (L.rules language.now) table.new }
    ensures closed { Closed (L.rules language.now) top table.new }
    ensures best { Best table.new aim.goal aim.state top table.new.scope.states result }
{
    settle(table, language, top);
    nearest(table, top as u32, aim)
}

// The state of the goal with the fewest steps from the state, if that is fewer than the top; the table is closed as far
// as that needs.
fn sought<L: UntilLanguage>(
    table: &mut Table,
    language: &Fitting<L>,
    top: u16,
    aim: Aim,
) -> Result<u8, Refusal>
    requires symbols { table.old.scope.symbols ≡ L.symbols language.now }
    requires state { In table.old.scope (0, aim.state, aim.state) }
    requires sound { Sound (L.rules language.now) table.old }
    ensures same { table.new.scope ≡ table.old.scope }
    ensures sound { Sound (L.rules language.now) table.new }
    ensures found { MatchResult result (λ to. (level : ℕ) × (level ≤ top) × Closed (L.rules language.now) level table.new × Nearest table.new aim.goal aim.state level table.new.scope.states to) (λ refusal. (refusal ≡ PathTooLong) × Closed (L.rules language.now) top table.new × Far table.new aim.goal aim.state top table.new.scope.states) }
{
    let level = grow(table, language, top, aim);
    if let Some(to) = settled(table, language, level, aim) {
        return Ok(to);
    }
    settled(table, language, top, aim).ok_or(Refusal::PathTooLong)
}

// A shortest path from the aim's state into its goal that is guarded before its end and whose word the language has, in the
// first places of the step list: none, or how many steps it has; refused if only longer ones than fit are there.
// The sheet calls it, with the set of all states that have such a path, and sees to it that language, state and lent memory
// are as asked. The set is no part of the aim, since `sought` does not read it; the sheet's caller lends each slice by
// itself, and each has a clause of its own here, so that a struct of them would be made and taken apart for one call.
pub fn shortest<L: UntilLanguage>(
    language: &Fitting<L>,
    ground: &GuardedModel,
    satisfying: NumberSet,
    aim: Aim,
    work: &mut [u32],
    waiting: &mut [Fact],
    steps: &mut [Step],
) -> Result<Option<usize>, Refusal>
    requires state { aim.state < ground.now.model.states }
    requires work { L.symbols language.now * ground.now.model.states * ground.now.model.states ≤ length work.old }
    requires waiting { length steps.old ≤ length waiting.old }
    requires marks { Exactly (Has satisfying) (λ s. (s < ground.now.model.states) × SomeGoodFor ground.now.model ground.now.guard aim.goal (L.rules language.now) s) }
    ensures { Shows ground.now.model ground.now.guard aim.goal (L.rules language.now) aim.state (min (length steps.old) 4096) steps.old steps.new result }
{
    if !satisfying.has(aim.state) {
        return Ok(None);
    }
    let scope = Scope::new(ground, language.symbols());
    let mut table = Table::empty(scope, work);
    let top = steps.len().min(4096) as u16 + 1;
    let to = sought(&mut table, language, top, aim)?;
    let fact = Fact {
        symbol: 0,
        from: aim.state,
        to,
    };
    let count = table.entry(fact) as usize - 1;
    unfold(&table, language, waiting, steps, fact, count);
    Ok(Some(count))
}
