// A set of numbers below 32: of states, of propositions, or of symbols.
ghost use Rattle.std.specs.Prelude.{◌≡◌, ℕ, ◌<◌, ◌≤◌, false, Decides, MatchOption, count_ones};
ghost use Rattle.model.specs.Relations.{Joined, Exactly};
ghost use Rattle.model.specs.Sets.{Has, nothing};

// Bit t of `bits` stands for the number t.
#[derive(Clone, Copy, PartialEq, Eq, Debug)]
pub struct NumberSet {
    bits: u32,
}

impl NumberSet {
    // The set with no number.
    pub fn empty() -> NumberSet
        ensures { result ≡ nothing }
    {
        NumberSet { bits: 0 }
    }

    // The set of n alone; empty if n is above 31.
    pub fn single(n: u8) -> NumberSet
        ensures { Exactly (Has result) (λ t. (t ≡ n) × (n < 32)) }
    {
        if n < 32 {
            NumberSet { bits: 1 << n }
        } else {
            NumberSet::empty()
        }
    }

    // The set of the numbers below n that are below 32.
    pub fn below(n: u8) -> NumberSet
        ensures { Exactly (Has result) (λ t. (t < n) × (t < 32)) }
    {
        if n < 32 {
            NumberSet { bits: (1 << n) - 1 }
        } else {
            NumberSet { bits: u32::MAX }
        }
    }

    // The sum of 2^t over the numbers t of the set.
    pub fn bits(self) -> u32
        ensures { result ≡ self.bits }
    {
        self.bits
    }

    // Whether n is in the set.
    pub fn has(self, n: u8) -> bool
        ensures { Decides result (Has self n) }
    {
        if n > 31 {
            return false;
        }
        (self.bits >> n) & 1 == 1
    }

    // Whether the set has no number.
    pub fn is_empty(self) -> bool
        ensures none { Decides result (self ≡ nothing) }
        ensures some { result ≡ false → (t : ℕ) × Has self t }
    {
        self.bits == 0
    }

    // How many numbers the set has.
    pub fn count(self) -> u32
        ensures { (result ≡ count_ones self.bits) × (result ≤ 32) }
    {
        self.bits.count_ones()
    }

    // The numbers of either set.
    pub fn union(self, other: NumberSet) -> NumberSet
        ensures { Joined (Has self) (Has result) (Has other) }
    {
        NumberSet {
            bits: self.bits | other.bits,
        }
    }

    // The numbers that `other` lacks.
    pub fn without(self, other: NumberSet) -> NumberSet
        ensures { Exactly (Has result) (λ t. Has self t × (Has other t → ⊥)) }
    {
        NumberSet {
            bits: self.bits ^ (self.bits & other.bits),
        }
    }

    // The numbers of both sets.
    pub fn common(self, other: NumberSet) -> NumberSet
        ensures { Exactly (Has result) (λ t. Has self t × Has other t) }
    {
        self.without(self.without(other))
    }

    // Takes the highest number out of the set. A set is gone over by taking its numbers out of a copy: an iterator would
    // have to say of each item what this says, and a loop would speak of what it gave in place of the set that is left.
    pub fn take_last(&mut self) -> Option<u8>
        ensures { MatchOption result ((self.old ≡ nothing) × (self.new ≡ nothing)) (λ t. (t < 32) × Joined (Has self.new) (Has self.old) (λ u. u ≡ t) × (self.new.bits < self.old.bits) × ((u : ℕ) → Has self.new u → u < t)) }
    {
        if self.is_empty() {
            return None;
        }
        let last = 31 - self.bits.leading_zeros();
        self.bits -= 1 << last;
        Some(last as u8)
    }
}
