//! The test of an opening.

ghost use Rattle.std.specs.Prelude.{◌≡◌};
ghost use Rattle.graph.specs.Opening.{bad_opening};

use crate::layout::{MAX_SLOTS, MAX_WORDS};

/// Is it a bad opening: more words than a heap takes, no slots or too many, or a first number of 0?
pub(crate) fn is_bad(words: usize, slots: u32, first: u32) -> bool
    ensures { result ≡ bad_opening words slots first }
{
    words > MAX_WORDS || slots == 0 || slots as usize > MAX_SLOTS || first == 0
}
