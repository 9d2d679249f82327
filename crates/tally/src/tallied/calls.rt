//! The calls of the heap below, counted.

ghost use Rattle.std.specs.Prelude.{◌≡◌};
ghost use Rattle.tally.specs.Counts.{counts_after, idled_counts};
ghost use Rattle.tally.specs.Tallied.{counts};

use super::Tally;
use graph::collected::Collected;
use graph::heap::Heap;
use kinds::refusal::Refusal;

impl<H: Heap> Heap for Tally<H> {
    ghost meaning = { λ t. H.Heap.meaning t.heap };

    ghost bounded = { λ t. H.Heap.bounded t.heap };

    ghost acts = { λ t c r u. H.Heap.acts t.heap c r u.heap × (counts u ≡ counts_after (counts t) c r (H.Heap.meaning u.heap)) };

    fn make(&mut self, slot: u32, kind: u32) -> Result<u32, Refusal> {
        let number = self.counts.note(self.heap.make(slot, kind))?;
        self.counts.add_make(&self.heap);
        Ok(number)
    }

    fn read(&mut self, slot: u32, field: u32) -> Result<u32, Refusal> {
        self.counts.note(self.heap.read(slot, field))
    }

    fn write(&mut self, slot: u32, field: u32, word: u32) -> Result<(), Refusal> {
        self.counts.note(self.heap.write(slot, field, word))
    }

    fn follow(&mut self, slot: u32, field: u32, to: u32) -> Result<(), Refusal> {
        self.counts.note(self.heap.follow(slot, field, to))
    }

    fn link(&mut self, slot: u32, field: u32, from: u32) -> Result<(), Refusal> {
        self.counts.note(self.heap.link(slot, field, from))
    }

    fn hold(&mut self, slot: u32, to: u32) -> Result<(), Refusal> {
        self.counts.note(self.heap.hold(slot, to))
    }

    fn drop(&mut self, slot: u32) -> Result<(), Refusal> {
        self.counts.note(self.heap.drop(slot))
    }

    fn look(&mut self, slot: u32) -> Result<(u32, u32), Refusal> {
        self.counts.note(self.heap.look(slot))
    }

    fn spare(&self) -> u32 {
        self.heap.spare()
    }

    fn capacity(&self) -> u32 {
        self.heap.capacity()
    }
}

impl<H: Collected> Collected for Tally<H> {
    ghost idles = { λ t n made ended u. H.Collected.idles t.heap n made ended u.heap × (counts u ≡ idled_counts (counts t) made) };

    fn idle(&mut self, count: u64) -> (u64, bool) {
        let (made, ended) = self.heap.idle(count);
        self.counts.add_steps(made);
        (made, ended)
    }
}
