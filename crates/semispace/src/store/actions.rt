//! What accepted calls do to words and registers.

ghost use Rattle.std.specs.Prelude.{◌≡◌, slice_index};
ghost use Rattle.semispace.specs.View.{view};
ghost use Rattle.semispace.specs.Words.{Forwardable, put_slot};
ghost use Rattle.semispace.specs.Sound.{value};
ghost use Rattle.semispace.specs.Callings.{words_after, held_at, Held, Linkable, Makeable};
ghost use Rattle.graph.specs.Calls.Call.{make as Make, write as Write, follow as Follow, link as Link, hold as Hold, drop as Dropped};

use super::Store;
use graph::layout::charge;

// Kept: `Held` stands in several contracts as a named fact and not in a type, since it is of a store and a caller's numbers.
impl<'m> Store<'m> {
    /// Makes a record of the kind in the slot, at the high end of the new half; gives its number.
    pub fn make(&mut self, slot: u32, kind: u32) -> u32
        requires { Makeable (view self.old) kind }
        ensures number { result ≡ (view self.old).next }
        ensures after { view self.new ≡ words_after (view self.old) (Make slot kind) }
    {
        let number = self.next as u32;
        let at = self.place_record(kind, number);
        self.next += 1;
        self.spare -= charge(&self.book, kind);
        self.slots.set(slot, at + 1);
        number
    }

    /// A field of the slot's record.
    #[tactic(auto, unfolding(crate::specs::Sound::value))]
    pub fn read(&self, slot: u32, field: u32) -> u32
        requires { Held (view self.now) slot field }
        ensures { result ≡ value (view self.now) (held_at (view self.now) slot) field }
    {
        self.field(self.held_at(slot), field)
    }

    /// Sets a word field of the slot's record.
    pub fn write(&mut self, slot: u32, field: u32, word: u32)
        requires { Held (view self.old) slot field }
        ensures { view self.new ≡ words_after (view self.old) (Write slot field word) }
    {
        let at = self.held_at(slot);
        self.put_field(at, field, word);
    }

    /// Puts a reference into a slot: in a cycle the place, reserved if there is none.
    fn put_slot(&mut self, slot: u32, reference: u32)
        requires { Forwardable (view self.old) reference }
        ensures { view self.new ≡ put_slot (view self.old) slot reference }
    {
        let put = self.forwarded(reference);
        self.slots.set(slot, put);
    }

    /// Puts what a reference field names into a slot.
    pub fn follow(&mut self, slot: u32, field: u32, to: u32)
        requires held { Held (view self.old) slot field }
        requires led { Forwardable (view self.old) (value (view self.old) (held_at (view self.old) slot) field) }
        ensures { view self.new ≡ words_after (view self.old) (Follow slot field to) }
    {
        let named = self.read(slot, field);
        self.put_slot(to, named);
    }

    /// Sets a reference field to what a slot holds: in a cycle the place, reserved if there is none.
    pub fn link(&mut self, slot: u32, field: u32, from: u32)
        requires { Linkable (view self.old) slot field from }
        ensures { view self.new ≡ words_after (view self.old) (Link slot field from) }
    {
        let at = self.held_at(slot);
        let held = self.slot(from);
        let put = self.forwarded(held);
        self.put_field(at, field, put);
    }

    /// Puts what a slot holds into another.
    pub fn hold(&mut self, slot: u32, to: u32)
        requires { Forwardable (view self.old) (slice_index (view self.old).slots slot) }
        ensures { view self.new ≡ words_after (view self.old) (Hold slot to) }
    {
        let held = self.slot(slot);
        self.put_slot(to, held);
    }

    /// Empties a slot.
    pub fn empty(&mut self, slot: u32)
        ensures { view self.new ≡ words_after (view self.old) (Dropped slot) }
    {
        self.slots.set(slot, 0);
    }
}
