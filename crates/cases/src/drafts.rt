// What drafts take and refuse.
use crate::report::Report;
use crate::workshop::{edge, full_draft};
use model::{Draft, Model, Refusal};

// Prints the sizes of a model and how many edges it has.
fn model_is(
    report: &mut Report,
    model: &Model,
    states: usize,
    actions: usize,
    edges: usize,
) -> anyhow::Result<()> {
    report.number("  states", usize::from(model.states()), states)?;
    report.number("  actions", usize::from(model.actions()), actions)?;
    report.number("  edges", model.edges().len(), edges)?;
    Ok(())
}

pub fn sizes(report: &mut Report) -> anyhow::Result<()> {
    report.heading("sizing a draft")?;
    let mut draft = Draft::new();
    report.compare("32 states and 16 actions", draft.size(32, 16), Ok(()))?;
    report.compare("the last edge", draft.add_edge(edge(31, 15, 31)), Ok(()))?;
    let outside = [
        ("0 states", 0, 1),
        ("33 states", 33, 1),
        ("0 actions", 1, 0),
        ("17 actions", 1, 17),
    ];
    for (what, states, actions) in outside {
        report.compare(what, draft.size(states, actions), Err(Refusal::OutOfRange))?;
    }
    report.heading("the draft is as it was:")?;
    model_is(report, &draft.seal(), 32, 16, 1)?;
    report.heading("a new draft:")?;
    model_is(report, &Draft::new().seal(), 1, 1, 0)
}

pub fn edges(report: &mut Report) -> anyhow::Result<()> {
    report.heading("adding edges to 5 states, 16 actions and 256 edges")?;
    let mut draft = full_draft()?;
    let more = edge(4, 0, 0);
    let cases = [
        (
            "from a missing state",
            edge(5, 16, 0),
            Err(Refusal::NoSuchState),
        ),
        (
            "to a missing state",
            edge(0, 16, 5),
            Err(Refusal::NoSuchState),
        ),
        (
            "by a missing action",
            edge(0, 16, 0),
            Err(Refusal::NoSuchAction),
        ),
        ("one that is there", edge(3, 15, 3), Ok(())),
        ("one more", more, Err(Refusal::TableFull)),
    ];
    for (what, edge, expected) in cases {
        report.compare(what, draft.add_edge(edge), expected)?;
    }
    report.heading("the draft is as it was:")?;
    let model = draft.seal();
    let there = usize::from(model.has_edge(more));
    report.number("  the edge that was refused is there", there, 0)?;
    model_is(report, &model, 5, 16, 256)
}

pub fn labels(report: &mut Report) -> anyhow::Result<()> {
    report.heading("adding propositions to 2 states")?;
    let mut draft = Draft::new();
    report.compare("2 states", draft.size(2, 1), Ok(()))?;
    let cases = [
        ("proposition 31 at state 1", 1, 31, Ok(())),
        (
            "proposition 32 at state 2",
            2,
            32,
            Err(Refusal::NoSuchState),
        ),
        (
            "proposition 32 at state 0",
            0,
            32,
            Err(Refusal::NoSuchProposition),
        ),
    ];
    for (what, state, proposition, expected) in cases {
        report.compare(what, draft.label(state, proposition), expected)?;
    }
    let model = draft.seal();
    for (what, proposition, states) in [
        ("proposition 31 holds at", 31, 2),
        ("proposition 0 holds at", 0, 0),
    ] {
        report.number(what, model.labelled(proposition).bits() as usize, states)?;
    }
    Ok(())
}
