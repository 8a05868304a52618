// Sets of the numbers that pass a test: for our own crates, since a test must be one that may be called.
ghost use Rattle.std.specs.Prelude.{ℕ, Bool, ◌<◌, ◌≤◌, Decides};
ghost use Rattle.model.specs.Sets.{Has};

use model::NumberSet;

// The numbers below n that pass the test; n is at most 32.
pub fn passing<F: Fn(u8) -> bool>(n: u8, test: F) -> NumberSet
    requires few { n ≤ 32 }
    requires callable { (t : ℕ) → t < n → F.pre test t }
    ensures below { (t : ℕ) → Has result t → t < n }
    ensures tested { (t : ℕ) → t < n → (passes : Bool) × F.post test t passes × Decides passes (Has result t) }
{
    let mut found = NumberSet::empty();
    for t in 0..n {
        if test(t) {
            found = found.union(NumberSet::single(t));
        }
    }
    found
}
