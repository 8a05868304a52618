ghost use Rattle.std.specs.Prelude.{◌≡◌, ◌≤◌, Decides};
ghost use Rattle.least.specs.Bands.{low_of, high_of, seconds_of};

// The facts that a sweep takes up: those with an entry from low to high. Band and top stand apart, since rules with no part
// have no band.
#[derive(Clone, Copy, PartialEq, Eq, Debug)]
pub enum Band {
    // Each as the first part of pair rules.
    Firsts { low: u32, high: u32 },
    // Each as the first and as the second part of pair rules.
    Either { low: u32, high: u32 },
}

impl Band {
    // Whether a fact with this entry is taken up.
    pub(crate) fn has(self, entry: u32) -> bool
        ensures { Decides result ((low_of self ≤ entry) × (entry ≤ high_of self)) }
    {
        match self {
            Band::Firsts { low, high } | Band::Either { low, high } => low <= entry
                && entry <= high,
        }
    }

    // Whether facts are taken up as second parts too.
    pub(crate) fn takes_seconds(self) -> bool
        ensures { result ≡ seconds_of self }
    {
        match self {
            Band::Firsts { .. } => false,
            Band::Either { .. } => true,
        }
    }
}
