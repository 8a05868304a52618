ghost use Rattle.std.specs.Prelude.{◌≡◌, ℕ, ◌≤◌};

// How many actions a language knows: those numbered below that.
// Each kind has its own impl of three lines: a shared one would ask each kind for the same three facts by another name.
pub trait Alphabet {
    ghost known: { Self → ℕ };

    fn action_count(&self) -> u8
        ensures { result ≡ known self.now };

    ghost some_action: { (l : Self) → 1 ≤ known l };

    ghost few_actions: { (l : Self) → known l ≤ 16 };
}
