//! What the calls of `actions` ask of a store of records: questions about its state, and one action for each call that is
//! not refused. Nothing is asked of its capacity and of the bounds of its numbers.

ghost use Rattle.std.specs.Prelude.{◌≡◌, ℕ, ◌<◌, length, ◌==◌, nat_lt, slice_index};
ghost use Rattle.graph.specs.Graph.{size, refers as Refers};
ghost use Rattle.graph.specs.Meaning.{Meaning, Called, Reply, refusal};
ghost use Rattle.graph.specs.Meaning.Reply.{gave, refused};
ghost use Rattle.graph.specs.Calls.{Call, slot as Slot, held};
ghost use Rattle.graph.specs.Calls.Answer.{word as Word, done, known};
ghost use Rattle.graph.specs.Calls.Call.{make as Make, read as Read, write as Write, follow as Follow, link as Link, hold as Hold, drop as Dropped, look as Look};

use crate::space::Space;

/// A store of records behind slots, of any size. Every `Space` is one.
// Kept beside `Space`: a store that no heap is, as one past the bounds of a heap's numbers, has its calls by this.
pub trait RecordSpace {
    /// What the space means.
    ghost meaning: { Self → Meaning };

    /// What a call does in the space's own terms.
    ghost acts: { Self → Call → Reply → Self → Type 0 };

    /// The number of slots.
    fn slots(&self) -> u32
        ensures { result ≡ length (meaning self.now).graph.slots };

    /// The number of kinds in the book.
    fn kinds(&self) -> u32
        ensures { result ≡ length (meaning self.now).book };

    /// The charge of a kind of the book.
    fn charge(&self, kind: u32) -> u32
        requires { kind < length (meaning self.now).book }
        ensures { result ≡ slice_index (meaning self.now).charges kind };

    /// The spare words.
    fn left(&self) -> u32
        ensures { result ≡ (meaning self.now).spare };

    /// Has the last number been given?
    fn spent(&self) -> bool
        ensures { result ≡ nat_lt 4294967295 (meaning self.now).graph.next };

    /// Is the slot empty?
    fn vacant(&self, slot: u32) -> bool
        requires { slot < length (meaning self.now).graph.slots }
        ensures { result ≡ (Slot (meaning self.now).graph slot == 0) };

    /// The number of fields of a full slot's record.
    fn fields(&self, slot: u32) -> u32
        requires slot { slot < length (meaning self.now).graph.slots }
        requires full { 0 < Slot (meaning self.now).graph slot }
        ensures { result ≡ size (meaning self.now).book (held (meaning self.now).graph slot).kind };

    /// Is a field of a full slot's record a reference?
    fn refers(&self, slot: u32, field: u32) -> bool
        requires slot { slot < length (meaning self.now).graph.slots }
        requires full { 0 < Slot (meaning self.now).graph slot }
        ensures { result ≡ Refers (meaning self.now).book (held (meaning self.now).graph slot).kind field };

    /// Makes a record.
    fn create(&mut self, slot: u32, kind: u32) -> u32
        requires { refusal (meaning self.old) (Make slot kind) ≡ 0 }
        ensures means { Called (meaning self.old) (Make slot kind) (gave (Word result)) (meaning self.new) }
        ensures acts { acts self.old (Make slot kind) (gave (Word result)) self.new };

    /// Reads a word field.
    fn load(&mut self, slot: u32, field: u32) -> u32
        requires { refusal (meaning self.old) (Read slot field) ≡ 0 }
        ensures means { Called (meaning self.old) (Read slot field) (gave (Word result)) (meaning self.new) }
        ensures acts { acts self.old (Read slot field) (gave (Word result)) self.new };

    /// Writes a word field.
    fn store(&mut self, slot: u32, field: u32, word: u32)
        requires { refusal (meaning self.old) (Write slot field word) ≡ 0 }
        ensures means { Called (meaning self.old) (Write slot field word) (gave done) (meaning self.new) }
        ensures acts { acts self.old (Write slot field word) (gave done) self.new };

    /// Puts what a reference field names into a slot.
    fn load_reference(&mut self, slot: u32, field: u32, to: u32)
        requires { refusal (meaning self.old) (Follow slot field to) ≡ 0 }
        ensures means { Called (meaning self.old) (Follow slot field to) (gave done) (meaning self.new) }
        ensures acts { acts self.old (Follow slot field to) (gave done) self.new };

    /// Sets a reference field to what a slot holds.
    fn store_reference(&mut self, slot: u32, field: u32, from: u32)
        requires { refusal (meaning self.old) (Link slot field from) ≡ 0 }
        ensures means { Called (meaning self.old) (Link slot field from) (gave done) (meaning self.new) }
        ensures acts { acts self.old (Link slot field from) (gave done) self.new };

    /// Puts what a slot holds into another.
    fn copy_slot(&mut self, slot: u32, to: u32)
        requires { refusal (meaning self.old) (Hold slot to) ≡ 0 }
        ensures means { Called (meaning self.old) (Hold slot to) (gave done) (meaning self.new) }
        ensures acts { acts self.old (Hold slot to) (gave done) self.new };

    /// Empties a slot.
    fn clear_slot(&mut self, slot: u32)
        requires { refusal (meaning self.old) (Dropped slot) ≡ 0 }
        ensures means { Called (meaning self.old) (Dropped slot) (gave done) (meaning self.new) }
        ensures acts { acts self.old (Dropped slot) (gave done) self.new };

    /// Number and kind of a slot's record, both 0 for an empty slot.
    fn describe(&mut self, slot: u32) -> (u32, u32)
        requires { refusal (meaning self.old) (Look slot) ≡ 0 }
        ensures means { Called (meaning self.old) (Look slot) (gave (known result.0 result.1)) (meaning self.new) }
        ensures acts { acts self.old (Look slot) (gave (known result.0 result.1)) self.new };

    /// A refused call leaves everything.
    ghost still: { (s : Self) (c : Call) (n : ℕ) → acts s c (refused n) s };
}

impl<S: Space> RecordSpace for S {
    ghost meaning = { S.Space.meaning };

    ghost acts = { S.Space.acts };

    fn slots(&self) -> u32 {
        Space::slots(self)
    }

    fn kinds(&self) -> u32 {
        Space::kinds(self)
    }

    fn charge(&self, kind: u32) -> u32 {
        Space::charge(self, kind)
    }

    fn left(&self) -> u32 {
        Space::left(self)
    }

    fn spent(&self) -> bool {
        Space::spent(self)
    }

    fn vacant(&self, slot: u32) -> bool {
        Space::vacant(self, slot)
    }

    fn fields(&self, slot: u32) -> u32 {
        Space::fields(self, slot)
    }

    fn refers(&self, slot: u32, field: u32) -> bool {
        Space::refers(self, slot, field)
    }

    fn create(&mut self, slot: u32, kind: u32) -> u32 {
        Space::create(self, slot, kind)
    }

    fn load(&mut self, slot: u32, field: u32) -> u32 {
        Space::load(self, slot, field)
    }

    fn store(&mut self, slot: u32, field: u32, word: u32) {
        Space::store(self, slot, field, word);
    }

    fn load_reference(&mut self, slot: u32, field: u32, to: u32) {
        Space::load_reference(self, slot, field, to);
    }

    fn store_reference(&mut self, slot: u32, field: u32, from: u32) {
        Space::store_reference(self, slot, field, from);
    }

    fn copy_slot(&mut self, slot: u32, to: u32) {
        Space::copy_slot(self, slot, to);
    }

    fn clear_slot(&mut self, slot: u32) {
        Space::clear_slot(self, slot);
    }

    fn describe(&mut self, slot: u32) -> (u32, u32) {
        Space::describe(self, slot)
    }

    ghost still = { S.Space.still };
}
