//! The words and registers of a copying heap.

ghost use Rattle.std.specs.Prelude.{◌≡◌, ◌+◌, ◌≤◌, length};

use crate::collector::Collector;
use crate::halves::Halves;
use graph::slots::Slots;
use kinds::book::SealedBook;

pub mod actions;
pub mod fields;
pub mod opening;
pub mod questions;
pub mod steps;

/// Lent words, and the registers over them.
pub struct Store<'m> {
    // Kept: lent words, read and written at computed places; that is a rule of the project.
    pub memory: &'m mut [u32],
    pub slots: Slots,
    book: SealedBook,
    pub next: u64,
    pub spare: u32,
    pub halves: Halves,
    collector: Collector,
    ghost half: { halves.size + halves.size ≤ length memory.now },
    ghost small: { halves.size ≤ 8192 },
    ghost side: { halves.base ≤ halves.size },
    ghost ends: { halves.low ≤ halves.high },
    ghost top: { halves.high ≤ halves.size },
}

/// Letting a heap go leaves the lent words as they were.
// Kept: a derived `Drop` has no contract, and this one promises what the lender finds, of each heap's own store.
impl<'m> Drop for Store<'m> {
    fn drop(self)
        ensures { self.exit.0.now ≡ self.entry.memory.now }
    {
        let Store {
            memory: _,
            slots: _,
            book: _,
            next: _,
            spare: _,
            halves: _,
            collector: _,
        } = self;
    }
}
