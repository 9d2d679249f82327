//! The number that each refusal returns.

ghost use Rattle.std.specs.Prelude.{◌≡◌};
ghost use Rattle.kinds.specs.Refusals.{code};

use crate::refusal::Refusal;

impl Refusal {
    /// The number that a refused call returns.
    // Kept: a method and no `From`, since pages and programs ask a refusal for its number by this name.
    pub fn number(self) -> u32
        ensures { result ≡ code self }
    {
        self as u32
    }
}
