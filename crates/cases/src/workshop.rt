// The models that the cases are about.
use model::{Draft, Edge, Model, Refusal};
use sheet::Sheet;

pub fn edge(from: u8, action: u8, to: u8) -> Edge {
    Edge { from, action, to }
}

// Four states and two actions; state 0 has proposition 0, state 3 has proposition 1.
pub fn workshop() -> Result<Model, Refusal> {
    let mut draft = Draft::new();
    draft.size(4, 2)?;
    for (from, action, to) in [(0, 0, 1), (1, 0, 0), (0, 1, 2), (2, 1, 3), (3, 1, 0)] {
        draft.add_edge(edge(from, action, to))?;
    }
    draft.label(0, 0)?;
    draft.label(3, 1)?;
    Ok(draft.seal())
}

// One state, one action, no edge.
pub fn still() -> Model {
    Draft::new().seal()
}

// As many edges as a model takes: every edge among 4 states with 16 actions.
pub fn full_draft() -> Result<Draft, Refusal> {
    let mut draft = Draft::new();
    draft.size(5, 16)?;
    for action in 0..16 {
        for place in 0..16 {
            draft.add_edge(edge(place / 4, action, place % 4))?;
        }
    }
    Ok(draft)
}

// One state with an edge back to it by its one action; it has proposition 0.
pub fn spinning() -> Result<Model, Refusal> {
    let mut draft = Draft::new();
    draft.add_edge(edge(0, 0, 0))?;
    draft.label(0, 0)?;
    Ok(draft.seal())
}

// As large as a model can be: 32 states, 8 edges out of each, proposition 1 at state 31.
pub fn dense() -> Result<Model, Refusal> {
    let mut draft = Draft::new();
    draft.size(32, 8)?;
    for from in 0..32 {
        for action in 0..8 {
            draft.add_edge(edge(from, action, (from * 3 + action * 5 + 1) % 32))?;
        }
    }
    draft.label(0, 0)?;
    draft.label(31, 1)?;
    Ok(draft.seal())
}

// Five questions that the cases share: 0 proposition 0, 1 its not, 2 yes (one of the two), 3 no, 4 proposition 1.
pub fn basics(sheet: &mut Sheet) -> Result<(), Refusal> {
    sheet.proposition(0)?;
    sheet.not(0)?;
    sheet.or(0, 1)?;
    sheet.not(2)?;
    sheet.proposition(1)?;
    Ok(())
}
