//! A rate: how many steps a made word is worth.

ghost use Rattle.std.specs.Prelude.{◌≡◌, ◌≤◌};
ghost use Rattle.pacing.specs.Paces.{clamped, missing};

/// The least rate and the greatest.
const LEAST: u32 = 1;

const MOST: u32 = 1024;

/// A number of steps for a word, from 1 to 1,024.
#[derive(Clone, Copy)]
pub struct Rate {
    number: u32,
    ghost some: { 1 ≤ number },
    ghost few: { number ≤ 1024 },
}

impl Rate {
    /// The rate of this number, brought into 1 to 1,024.
    pub fn new(number: u32) -> Rate
        ensures { result.number ≡ clamped number }
    {
        Rate {
            number: number.clamp(LEAST, MOST),
        }
    }

    /// The steps that are missing of as many as these words are worth, or 0.
    pub fn missing(self, steps: u32, words: u32) -> u64
        ensures { result ≡ missing self.number steps words }
    {
        (u64::from(self.number) * u64::from(words)).saturating_sub(u64::from(steps))
    }
}
