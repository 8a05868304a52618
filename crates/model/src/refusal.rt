// Why a call is turned away.
ghost use Rattle.std.specs.Prelude.{◌≡◌, Some};
ghost use Rattle.std.specs.Fmt.{decimal};
ghost use Rattle.model.specs.Refusals.{number as printed};

use std::error::Error;
use std::fmt;

// Each case has the number that is printed for it; specs/Refusals gives the same numbers to the contracts.
#[derive(Clone, Copy, PartialEq, Eq, Debug)]
pub enum Refusal {
    // a model state is not below the number of states
    NoSuchState = 1,
    // an action is not below the number of actions
    NoSuchAction = 2,
    // a proposition is above 31
    NoSuchProposition = 3,
    // a size or modulus is outside its range
    OutOfRange = 4,
    // a symbol, or a state of an automaton or watcher, is not below its count
    NoSuchSymbol = 5,
    // up equals down, or the remainder is not below the modulus
    Contradictory = 6,
    // language and model have different numbers of actions
    OtherAlphabet = 7,
    // a language has more than 16 symbols or 128 rules, or a watcher more than 32 states
    TooLarge = 8,
    // the work table is too short
    WorkTooShort = 9,
    // waiting memory or step list is too short
    MemoryTooShort = 10,
    // a question number is not yet made
    NoSuchQuestion = 21,
    // an asking call finds 64 questions
    SheetFull = 22,
    // a full edge, rule or pile table would need another record
    TableFull = 23,
    // good paths exist, and each is longer than the step list or than 4,096 steps
    PathTooLong = 24,
}

impl Refusal {
    // The number that is printed.
    pub fn number(self) -> u8
        ensures { result ≡ printed self }
    {
        self as u8
    }
}

// A refusal prints as its number.
impl fmt::Display for Refusal {
    ghost output = { λ e. Some (decimal (printed e)) };

    fn fmt<W: fmt::Write>(&self, f: &mut fmt::Formatter<W>) -> fmt::Result {
        let number = self.number();
        write!(f, "{number}")
    }
}

impl Error for Refusal {}
