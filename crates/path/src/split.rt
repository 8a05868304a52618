// How a fact comes from shorter ones: by one step, by a step and a fact, or by two facts.
#[derive(Clone, Copy, PartialEq, Eq, Debug)]
pub enum Split {
    Last { action: u8, to: u8 },
    Onward { action: u8, to: u8, rest: u8 },
    Both { left: u8, through: u8, right: u8 },
}
