//! A collected heap of no slots and no words: the least thing that has the meaning.

ghost use Rattle.std.specs.Prelude.{◌≡◌};
ghost use Rattle.trials.specs.Hollow.{hollow, hollow_bounded};

use graph::collected::Collected;
use graph::heap::Heap;
use kinds::refusal::Refusal;

/// Refuses every call for want of slots; a cycle of it is one step.
#[derive(Clone, Copy)]
pub struct Hollow {
    first: u32,
}

impl Hollow {
    /// A hollow heap with a first number.
    pub fn new(first: u32) -> Hollow
        ensures { result.first ≡ first }
    {
        Hollow { first }
    }
}

impl Heap for Hollow {
    ghost meaning = { λ h. hollow h.first };

    ghost bounded = { λ h. hollow_bounded h.first };

    ghost acts = { λ h c r k. k ≡ h };

    fn make(&mut self, _slot: u32, _kind: u32) -> Result<u32, Refusal> {
        Err(Refusal::NoSlot)
    }

    fn read(&mut self, _slot: u32, _field: u32) -> Result<u32, Refusal> {
        Err(Refusal::NoSlot)
    }

    fn write(&mut self, _slot: u32, _field: u32, _word: u32) -> Result<(), Refusal> {
        Err(Refusal::NoSlot)
    }

    fn follow(&mut self, _slot: u32, _field: u32, _to: u32) -> Result<(), Refusal> {
        Err(Refusal::NoSlot)
    }

    fn link(&mut self, _slot: u32, _field: u32, _from: u32) -> Result<(), Refusal> {
        Err(Refusal::NoSlot)
    }

    fn hold(&mut self, _slot: u32, _to: u32) -> Result<(), Refusal> {
        Err(Refusal::NoSlot)
    }

    fn drop(&mut self, _slot: u32) -> Result<(), Refusal> {
        Err(Refusal::NoSlot)
    }

    fn look(&mut self, _slot: u32) -> Result<(u32, u32), Refusal> {
        Err(Refusal::NoSlot)
    }

    fn spare(&self) -> u32 {
        0
    }

    fn capacity(&self) -> u32 {
        0
    }
}

impl Collected for Hollow {
    ghost idles = { λ h count made ended k. k ≡ h };

    fn idle(&mut self, count: u64) -> (u64, bool) {
        if count == 0 { (0, false) } else { (1, true) }
    }
}
