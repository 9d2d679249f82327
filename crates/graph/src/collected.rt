//! What every collected heap is: a heap with one more call.

ghost use Rattle.std.specs.Prelude.{ℕ, Bool};
ghost use Rattle.graph.specs.Cycle.{Idled};

use crate::heap::Heap;

/// A heap whose collector works in idle moments.
pub trait Collected: Heap {
    /// What an idle does in the heap's own terms: from a state, asked for so many steps, it tells the steps made and
    /// whether a cycle ended, and leaves a state.
    ghost idles: { Self → ℕ → ℕ → Bool → Self → Type 0 };

    /// Makes `count` steps of the collector, but stops with the one that ends a cycle. Answers the steps made, and whether
    /// a cycle ended. It is never refused.
    // Kept: a pair of the steps and whether a cycle ended; that is a rule of the project.
    fn idle(&mut self, count: u64) -> (u64, bool)
        ensures means { Idled (Self.Heap.meaning self.old) count result.0 result.1 (Self.Heap.meaning self.new) }
        ensures acts { idles self.old count result.0 result.1 self.new };
}
