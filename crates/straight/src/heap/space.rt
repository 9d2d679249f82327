//! The straight heap as a space of records, over which its calls are written. Programs use `Heap`.

ghost use Rattle.std.specs.Prelude.{refl};
ghost use Rattle.straight.specs.Stored.{state};
ghost use Rattle.straight.specs.Layout.{meaning_of};
ghost use Rattle.straight.specs.Words.{Acted};
ghost use Rattle.straight.specs.Bounds.{numbers_bounded};

use super::Straight;
use graph::layout::{LAST_NUMBER, charge};
use graph::space::Space;

// Kept: as the copying heap has it, function by function; each is one line and promises words of its own heap's state.
impl<'m> Space for Straight<'m> {
    ghost meaning = { λ h. meaning_of (state h.store) };

    ghost bounded = { λ h. numbers_bounded (state h.store) h.whole };

    ghost acts = { λ h c r k. Acted (state h.store) c r (state k.store) };

    ghost still = { λ h c n. refl };

    fn slots(&self) -> u32 {
        self.store.slots.count()
    }

    fn kinds(&self) -> u32 {
        self.store.book.kinds()
    }

    fn charge(&self, kind: u32) -> u32 {
        charge(&self.store.book, kind)
    }

    fn room(&self) -> u32 {
        self.store.room
    }

    fn left(&self) -> u32 {
        self.store.room - self.store.top
    }

    // Kept: 64 bits and no Option, since the next number after the last one is a number of the model.
    fn spent(&self) -> bool {
        self.store.next > LAST_NUMBER
    }

    fn vacant(&self, slot: u32) -> bool {
        self.store.slots.get(slot) == 0
    }

    fn fields(&self, slot: u32) -> u32 {
        self.store.book.fields(self.store.kind_held(slot))
    }

    fn refers(&self, slot: u32, field: u32) -> bool {
        self.store.book.refers(self.store.kind_held(slot), field)
    }

    fn create(&mut self, slot: u32, kind: u32) -> u32 {
        self.store.lay(slot, kind)
    }

    fn load(&self, slot: u32, field: u32) -> u32 {
        self.store.field(slot, field)
    }

    fn store(&mut self, slot: u32, field: u32, word: u32) {
        self.store.put_field(slot, field, word);
    }

    fn load_reference(&mut self, slot: u32, field: u32, to: u32) {
        self.store.follow(slot, field, to);
    }

    fn store_reference(&mut self, slot: u32, field: u32, from: u32) {
        self.store.link(slot, field, from);
    }

    fn copy_slot(&mut self, slot: u32, to: u32) {
        self.store.hold(slot, to);
    }

    fn clear_slot(&mut self, slot: u32) {
        self.store.empty(slot);
    }

    fn describe(&self, slot: u32) -> (u32, u32) {
        if self.store.slots.get(slot) == 0 {
            return (0, 0);
        }
        self.store.described(slot)
    }
}
