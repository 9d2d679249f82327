//! What the slots and the words say of a record.

ghost use Rattle.std.specs.Prelude.{◌≡◌, ◌+◌, ◌<◌};
ghost use Rattle.straight.specs.Stored.{state};
ghost use Rattle.straight.specs.Words.{Full, place as Place, reference, word_at};

use super::Store;

// Kept: `Full` stands in several contracts as a named fact and not in a type, since it is of a store and a caller's number.
impl<'m> Store<'m> {
    /// The address of a full slot's record.
    pub(crate) fn place(&self, slot: u32) -> u32
        requires { 0 < reference (state self.now) slot }
        ensures { result ≡ Place (state self.now) slot }
    {
        self.slots.get(slot) - 1
    }

    /// The kind of a full slot's record.
    pub(crate) fn kind_held(&self, slot: u32) -> u32
        requires { Full (state self.now) slot }
        ensures { result ≡ word_at (state self.now) (Place (state self.now) slot + 1) }
    {
        self.word(self.place(slot) + 1)
    }

    /// Number and kind of a full slot's record.
    pub(crate) fn described(&self, slot: u32) -> (u32, u32)
        requires { Full (state self.now) slot }
        ensures number { result.0 ≡ word_at (state self.now) (Place (state self.now) slot) }
        ensures kind { result.1 ≡ word_at (state self.now) (Place (state self.now) slot + 1) }
    {
        (self.word(self.place(slot)), self.kind_held(slot))
    }
}
