//! The steps of the collector.

ghost use Rattle.std.specs.Prelude.{◌≡◌};
ghost use Rattle.graph.specs.Cycle.{Step, Idled};
ghost use Rattle.semispace.specs.View.{view};
ghost use Rattle.semispace.specs.Words.{stepped, resting as Resting, idle_made, idle_ended, idle_state};
ghost use Rattle.semispace.specs.Collected.{meaning_of};

use super::Copying;
use graph::collected::Collected;

impl<'m> Copying<'m> {
    /// Makes the one transition that fits; says whether it ended a cycle.
    pub fn step(&mut self) -> bool
        ensures after { view self.new.store ≡ stepped (view self.old.store) }
        ensures ended { result ≡ Resting (view self.new.store).collector }
        ensures means { Step (meaning_of (view self.old.store)) (meaning_of (view self.new.store)) }
    {
        self.store.step()
    }

    fn make_steps(&mut self, n: u64) -> (u64, bool)
        ensures steps { result.0 ≡ idle_made n (view self.old.store) }
        ensures ended { result.1 ≡ idle_ended n (view self.old.store) }
        ensures after { view self.new.store ≡ idle_state n (view self.old.store) }
        ensures means { Idled (meaning_of (view self.old.store)) n result.0 result.1 (meaning_of (view self.new.store)) }
    {
        for made in 0..n {
            if self.step() {
                return (made + 1, true);
            }
        }
        (n, false)
    }
}

impl<'m> Collected for Copying<'m> {
    ghost idles = { λ h n made ended k. (made ≡ idle_made n (view h.store)) × (ended ≡ idle_ended n (view h.store)) × (view k.store ≡ idle_state n (view h.store)) };

    fn idle(&mut self, count: u64) -> (u64, bool) {
        self.make_steps(count)
    }
}
