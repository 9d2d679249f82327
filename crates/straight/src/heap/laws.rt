//! The laws of the straight heap's words.

ghost use Rattle.straight.specs.Laws.{StraightLaws};

/// What every call leaves of the lent words: the promise is the theorem, there is nothing to run.
pub fn straight_laws_hold()
    ensures { StraightLaws }
{}
