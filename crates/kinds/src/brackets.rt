// A language of brackets.
ghost use Rattle.std.specs.Prelude.{◌<◌, ◌≤◌, ◌≢◌};

// Its words have as many ups as downs, and no beginning with more downs than ups; other actions may stand anywhere.
// The number of actions stands as a number with its fact, as in `Automaton`.
#[derive(Clone, Copy)]
pub struct Brackets {
    up: u8,
    down: u8,
    actions: u8,
    ghost up_known: { up < actions },
    ghost down_known: { down < actions },
    ghost few_actions: { actions ≤ 16 },
    ghost apart: { up ≢ down },
}

mod making;
mod telling;
