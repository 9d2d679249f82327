//! The setting up of a tally, its counts, and the heap below.

ghost use Rattle.std.specs.Prelude.{◌≡◌, ℕ};
ghost use Rattle.graph.specs.Meaning.{Opened};
ghost use Rattle.tally.specs.Counts.{started};
ghost use Rattle.tally.specs.Tallied.{counts};

use super::Tally;
use crate::counts::Counts;
use graph::heap::Heap;

impl<H: Heap> Tally<H> {
    /// Sets a tally up over a heap, which stays as it is: one just opened stays one. The highest words in use start at the use now.
    pub fn new(heap: H) -> Tally<H>
        ensures below { result.heap ≡ heap }
        ensures opened { (first : ℕ) → Opened first (H.Heap.meaning heap) → Opened first (H.Heap.meaning result.heap) }
        ensures counts { counts result ≡ started (H.Heap.meaning heap) }
    {
        Tally {
            counts: Counts::start(&heap),
            heap,
        }
    }

    /// The accepted makes.
    pub fn makes(&self) -> u32
        ensures { result ≡ (counts self.now).makes }
    {
        self.counts.makes
    }

    /// The refused calls.
    pub fn refusals(&self) -> u32
        ensures { result ≡ (counts self.now).refusals }
    {
        self.counts.refusals
    }

    /// The steps.
    pub fn steps(&self) -> u32
        ensures { result ≡ (counts self.now).steps }
    {
        self.counts.steps
    }

    /// The highest words in use.
    pub fn highest(&self) -> u32
        ensures { result ≡ (counts self.now).highest }
    {
        self.counts.highest
    }

    /// The heap below, for reading.
    pub fn heap(&self) -> &H
        ensures { result.now ≡ self.now.heap }
    {
        &self.heap
    }
}
