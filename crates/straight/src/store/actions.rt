//! What each accepted call does to words and slots.

ghost use Rattle.std.specs.Prelude.{◌≡◌};
ghost use Rattle.graph.specs.Calls.Call.{make as Make, write as Write, follow as Follow, link as Link, hold as Hold, drop as Dropped};
ghost use Rattle.straight.specs.Stored.{state};
ghost use Rattle.straight.specs.Words.{Held, Room, spot as Spot, word_at, words_after};

use super::Store;
use graph::layout::HEAD;
use graph::words::clear;

// Kept: `Held` stands in several contracts as a named fact and not in a type, since it is of a store and a caller's numbers.
impl<'m> Store<'m> {
    /// Lays a record of the kind at the top, and puts it into the slot; gives its number.
    pub(crate) fn lay(&mut self, slot: u32, kind: u32) -> u32
        requires { Room (state self.old) kind }
        ensures number { result ≡ (state self.old).next }
        ensures after { state self.new ≡ words_after (state self.old) (Make slot kind) }
    {
        let fields = self.book.fields(kind);
        let at = self.top;
        let number = self.next as u32;
        self.put(at, number);
        self.put(at + 1, kind);
        clear(self.memory, at + HEAD, fields);
        self.slots.set(slot, at + 1);
        self.top = at + (HEAD + fields);
        self.next += 1;
        number
    }

    /// Where a field of a slot's record lies.
    fn spot(&self, slot: u32, field: u32) -> u32
        requires { Held (state self.now) slot field }
        ensures { result ≡ Spot (state self.now) slot field }
    {
        self.place(slot) + HEAD + field
    }

    /// A field of a slot's record.
    pub(crate) fn field(&self, slot: u32, field: u32) -> u32
        requires { Held (state self.now) slot field }
        ensures { result ≡ word_at (state self.now) (Spot (state self.now) slot field) }
    {
        self.word(self.spot(slot, field))
    }

    /// Sets a word field of a slot's record.
    pub(crate) fn put_field(&mut self, slot: u32, field: u32, word: u32)
        requires { Held (state self.old) slot field }
        ensures { state self.new ≡ words_after (state self.old) (Write slot field word) }
    {
        let at = self.spot(slot, field);
        self.put(at, word);
    }

    /// Puts a reference field of a slot's record into another slot.
    pub(crate) fn follow(&mut self, slot: u32, field: u32, to: u32)
        requires { Held (state self.old) slot field }
        ensures { state self.new ≡ words_after (state self.old) (Follow slot field to) }
    {
        let reference = self.field(slot, field);
        self.slots.set(to, reference);
    }

    /// Sets a reference field of a slot's record to what another slot holds.
    pub(crate) fn link(&mut self, slot: u32, field: u32, from: u32)
        requires { Held (state self.old) slot field }
        ensures { state self.new ≡ words_after (state self.old) (Link slot field from) }
    {
        let reference = self.slots.get(from);
        self.put_field(slot, field, reference);
    }

    /// Puts what a slot holds into another.
    pub(crate) fn hold(&mut self, slot: u32, to: u32)
        ensures { state self.new ≡ words_after (state self.old) (Hold slot to) }
    {
        let reference = self.slots.get(slot);
        self.slots.set(to, reference);
    }

    /// Empties a slot.
    pub(crate) fn empty(&mut self, slot: u32)
        ensures { state self.new ≡ words_after (state self.old) (Dropped slot) }
    {
        self.slots.set(slot, 0);
    }
}
