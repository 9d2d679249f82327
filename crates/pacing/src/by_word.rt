//! By-word: just what is missing.

ghost use Rattle.std.specs.Prelude.{◌≡◌};
ghost use Rattle.pacing.specs.Paces.{clamped, missing};
ghost use Rattle.pacing.specs.Examples.{Examples};
ghost use Rattle.std.proofs.Common.{arith};

use crate::pace::Pacing;
use crate::rate::Rate;

/// Asks for the steps that are missing, or for none.
#[derive(Clone, Copy)]
pub struct ByWord {
    rate: Rate,
}

impl ByWord {
    /// A pacing at this rate, brought into 1 to 1,024.
    pub fn new(rate: u32) -> ByWord
        ensures { result.rate.number ≡ clamped rate }
    {
        ByWord {
            rate: Rate::new(rate),
        }
    }
}

impl Pacing for ByWord {
    ghost rate = { λ p. p.rate.number };

    ghost asks = { λ p steps words spare. missing p.rate.number steps words };

    ghost some = { λ p. p.rate.some };

    ghost few = { λ p. p.rate.few };

    ghost enough = { Prim.grind arith };

    fn owed(&self, steps: u32, words: u32, _spare: u32) -> u64 {
        self.rate.missing(steps, words)
    }
}

/// The worked examples: the promise is the theorem, there is nothing to run.
pub fn by_word_examples_hold()
    ensures { Examples }
{}
