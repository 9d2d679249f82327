//! The copying heap as a space of records, over which its calls are written. Programs use `Heap`.

ghost use Rattle.std.specs.Prelude.{refl};
ghost use Rattle.semispace.specs.View.{view};
ghost use Rattle.semispace.specs.Collected.{meaning_of};
ghost use Rattle.semispace.specs.Callings.{Acted};
ghost use Rattle.semispace.specs.Bounds.{numbers_bounded};

use super::Copying;
use graph::layout::LAST_NUMBER;
use graph::space::Space;

// Kept: as the straight heap has it, function by function; each is one line and promises words of its own heap's state.
impl<'m> Space for Copying<'m> {
    ghost meaning = { λ h. meaning_of (view h.store) };

    ghost bounded = { λ h. numbers_bounded (view h.store) h.whole };

    ghost acts = { λ h c r k. Acted (view h.store) c r (view k.store) };

    ghost still = { λ h c n. refl };

    fn slots(&self) -> u32 {
        self.store.slots.count()
    }

    fn kinds(&self) -> u32 {
        self.store.kinds()
    }

    fn charge(&self, kind: u32) -> u32 {
        self.store.charge(kind)
    }

    fn room(&self) -> u32 {
        self.store.halves.size
    }

    fn left(&self) -> u32 {
        self.store.spare
    }

    // Kept: 64 bits and no Option, since the next number after the last one is a number of the model.
    fn spent(&self) -> bool {
        self.store.next > LAST_NUMBER
    }

    fn vacant(&self, slot: u32) -> bool {
        self.store.slot(slot) == 0
    }

    fn fields(&self, slot: u32) -> u32 {
        self.store.fields_held(slot)
    }

    fn refers(&self, slot: u32, field: u32) -> bool {
        self.store.refers_held(slot, field)
    }

    fn create(&mut self, slot: u32, kind: u32) -> u32 {
        self.store.make(slot, kind)
    }

    fn load(&self, slot: u32, field: u32) -> u32 {
        self.store.read(slot, field)
    }

    fn store(&mut self, slot: u32, field: u32, word: u32) {
        self.store.write(slot, field, word);
    }

    fn load_reference(&mut self, slot: u32, field: u32, to: u32) {
        self.store.follow(slot, field, to);
    }

    fn store_reference(&mut self, slot: u32, field: u32, from: u32) {
        self.store.link(slot, field, from);
    }

    fn copy_slot(&mut self, slot: u32, to: u32) {
        self.store.hold(slot, to);
    }

    fn clear_slot(&mut self, slot: u32) {
        self.store.empty(slot);
    }

    fn describe(&self, slot: u32) -> (u32, u32) {
        if self.store.slot(slot) == 0 {
            return (0, 0);
        }
        self.store.described(slot)
    }
}
