// One language of each kind.
use kinds::{Automaton, Brackets, Grammar};
use language::Rule;
use model::{Edge, Refusal};
use watchers::{StepWatcher, TableWatcher};

// The words whose length leaves 1 when it is divided by 3.
pub fn steps() -> Result<StepWatcher, Refusal> {
    StepWatcher::new(3, 1, 2)
}

// The words that end in action 1: state 1 is where the last action was 1.
pub fn last_one() -> Result<TableWatcher, Refusal> {
    let mut watcher = TableWatcher::new();
    watcher.size(2, 2)?;
    watcher.set_next(0, 1, 1)?;
    watcher.set_next(1, 1, 1)?;
    watcher.mark(1)?;
    Ok(watcher)
}

// Some zeros, and then as many ones. The program `cases` has this grammar too: a crate for both programs would be longer
// than what stands twice.
pub fn equal_runs() -> Result<Grammar, Refusal> {
    let rules = [
        Rule::Lead {
            head: 0,
            action: 0,
            rest: 1,
        },
        Rule::Pair {
            head: 1,
            left: 0,
            right: 2,
        },
        Rule::Letter { head: 1, action: 1 },
        Rule::Letter { head: 2, action: 1 },
    ];
    let mut grammar = Grammar::new();
    grammar.size(3, 2)?;
    for rule in rules {
        grammar.add_rule(rule)?;
    }
    Ok(grammar)
}

// The words whose last action but one is 1, by a guess at where it stands.
pub fn last_but_one() -> Result<Automaton, Refusal> {
    let mut automaton = Automaton::new();
    automaton.size(3, 2)?;
    for (from, action, to) in [(0, 0, 0), (0, 1, 0), (0, 1, 1), (1, 0, 2), (1, 1, 2)] {
        automaton.add_edge(Edge { from, action, to })?;
    }
    automaton.set_final(2)?;
    Ok(automaton)
}

// Action 0 opens, action 1 closes, and action 2 may stand anywhere.
pub fn brackets() -> Result<Brackets, Refusal> {
    Brackets::new(0, 1, 3)
}
