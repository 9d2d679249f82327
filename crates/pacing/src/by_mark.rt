//! By-mark: what is missing, and many steps while the spare is under a mark.

ghost use Rattle.std.specs.Prelude.{◌≡◌};
ghost use Rattle.pacing.specs.Paces.{clamped, marked};
ghost use Rattle.std.proofs.Common.{arith};

use crate::pace::Pacing;
use crate::rate::Rate;

/// The least answer while the spare is under the mark.
const MANY: u64 = 131_072;

/// Asks for the steps that are missing, but for no fewer than 131,072 while the spare is under the mark.
#[derive(Clone, Copy)]
pub struct ByMark {
    rate: Rate,
    mark: u32,
}

impl ByMark {
    /// A pacing at this rate, brought into 1 to 1,024, with this mark.
    pub fn new(rate: u32, mark: u32) -> ByMark
        ensures rate { result.rate.number ≡ clamped rate }
        ensures mark { result.mark ≡ mark }
    {
        ByMark {
            rate: Rate::new(rate),
            mark,
        }
    }
}

// Kept: rate, some, few and enough stand as in by-word, each one line, since each impl gives its own; asks and owed differ.
impl Pacing for ByMark {
    ghost rate = { λ p. p.rate.number };

    ghost asks = { λ p steps words spare. marked p.rate.number p.mark steps words spare };

    ghost some = { λ p. p.rate.some };

    ghost few = { λ p. p.rate.few };

    ghost enough = { Prim.grind arith };

    fn owed(&self, steps: u32, words: u32, spare: u32) -> u64 {
        let missing = self.rate.missing(steps, words);
        if spare < self.mark {
            missing.max(MANY)
        } else {
            missing
        }
    }
}
