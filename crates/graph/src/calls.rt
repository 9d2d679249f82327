//! The calls of a heap, for every space of records.

use crate::actions;
use crate::heap::Heap;
use crate::space::Space;
use kinds::refusal::Refusal;

impl<S: Space> Heap for S {
    ghost meaning = { S.Space.meaning };

    ghost bounded = { S.Space.bounded };

    ghost acts = { S.Space.acts };

    fn make(&mut self, slot: u32, kind: u32) -> Result<u32, Refusal> {
        actions::make(self, slot, kind)
    }

    fn read(&mut self, slot: u32, field: u32) -> Result<u32, Refusal> {
        actions::read(self, slot, field)
    }

    fn write(&mut self, slot: u32, field: u32, word: u32) -> Result<(), Refusal> {
        actions::write(self, slot, field, word)
    }

    fn follow(&mut self, slot: u32, field: u32, to: u32) -> Result<(), Refusal> {
        actions::follow(self, slot, field, to)
    }

    fn link(&mut self, slot: u32, field: u32, from: u32) -> Result<(), Refusal> {
        actions::link(self, slot, field, from)
    }

    fn hold(&mut self, slot: u32, to: u32) -> Result<(), Refusal> {
        actions::hold(self, slot, to)
    }

    fn drop(&mut self, slot: u32) -> Result<(), Refusal> {
        actions::drop(self, slot)
    }

    fn look(&mut self, slot: u32) -> Result<(u32, u32), Refusal> {
        actions::look(self, slot)
    }

    fn spare(&self) -> u32 {
        self.left()
    }

    fn capacity(&self) -> u32 {
        self.room()
    }
}
