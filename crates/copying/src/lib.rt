//! The copying heap: records in two halves of lent words, moved one field a step.

#![tactic(auto)]

pub mod heap;

ghost use Rattle.semispace.specs.Stands.{Stands};

/// Steps and calls of the copying heap keep the meaning: the promise is the theorem, there is nothing to run.
// Kept: the same law as semispace has, so that it stands on a public function of the crate that programs use.
pub fn copying_laws_hold()
    ensures { Stands }
{}
