//! The two halves of a copying heap as states: their registers, the transitions, the invariant, and what is proved of them.

#![tactic(auto)]

mod collector;
mod cursor;
mod halves;
pub mod store;

ghost use Rattle.semispace.specs.Stands.{Stands};

/// Steps and calls of the copying heap keep the meaning: the promise is the theorem, there is nothing to run.
pub fn semispace_laws_hold()
    ensures { Stands }
{}
