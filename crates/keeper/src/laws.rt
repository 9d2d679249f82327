//! The laws over whole runs.

ghost use Rattle.keeper.specs.History.{Law, Example};

/// The laws hold of every history of a new keeper, over every heap and every pacing: the promise is the theorem, there is nothing to run.
#[tactic(auto, using(crate::proofs::Shown::law))]
pub fn laws_hold()
    ensures law { Law }
    ensures example { Example }
{}
