//! The two halves of memory.

ghost use Rattle.std.specs.Prelude.{◌≡◌, ◌+◌, ◌-◌, ◌^◌, ◌<◌, ◌≤◌};
ghost use Rattle.semispace.specs.Words.{grown as Grown, swapped as Swapped, lowered as Lowered, leads_new};

/// The halves of memory: their size, where the new one begins, what is taken of it at its two ends, and what was taken of the old one.
// Kept: four ends and not two pairs, since each change but that of Start sets one of them alone, and would build a pair anew.
#[derive(Clone, Copy, Debug, PartialEq, Eq)]
pub struct Halves {
    pub size: u32,
    pub base: u32,
    pub low: u32,
    pub high: u32,
    pub old_low: u32,
    pub old_high: u32,
}

impl Halves {
    /// Does a reference lead into the new half?
    pub(crate) fn leads_new(&self, reference: u32) -> bool
        ensures { result ≡ leads_new self.now reference }
    {
        self.base < reference && reference - self.base <= self.size
    }

    pub(crate) fn swapped(&self) -> Halves
        requires { self.now.base ≤ self.now.size }
        ensures { result ≡ Swapped self.now }
    {
        Halves {
            base: self.size - self.base,
            low: 0,
            high: self.size,
            old_low: self.low,
            old_high: self.high,
            ..*self
        }
    }

    pub(crate) fn grown(&self, words: u32) -> Halves
        requires { self.now.low + words < 2 ^ 32 }
        ensures { result ≡ Grown self.now words }
    {
        Halves {
            low: self.low + words,
            ..*self
        }
    }

    pub(crate) fn lowered(&self, words: u32) -> Halves
        requires { words ≤ self.now.high }
        ensures { result ≡ Lowered self.now words }
    {
        Halves {
            high: self.high - words,
            ..*self
        }
    }
}
