//! What every pacing is.

ghost use Rattle.std.specs.Prelude.{◌≡◌, ℕ, ◌+◌, ◌*◌, ◌≤◌};

/// A pacing has a rate of 1 to 1,024 steps for a word. Given the steps and the words made since the last cycle end, and the
/// spare, it answers a number of steps.
pub trait Pacing {
    /// The rate.
    ghost rate: { Self → ℕ };

    /// The answer, a function of steps, words and spare.
    ghost asks: { Self → ℕ → ℕ → ℕ → ℕ };

    /// How many steps to make now.
    fn owed(&self, steps: u32, words: u32, spare: u32) -> u64
        ensures { result ≡ asks self.now steps words spare };

    ghost some: { (p : Self) → 1 ≤ rate p };

    ghost few: { (p : Self) → rate p ≤ 1024 };

    /// The steps already made plus the answer are at least the rate times the words.
    ghost enough: { (p : Self) (steps words spare : ℕ) → rate p * words ≤ steps + asks p steps words spare };
}
