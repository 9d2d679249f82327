//! Words and registers of a straight heap.

ghost use Rattle.std.specs.Prelude.{◌≡◌};

use graph::slots::Slots;
use kinds::book::SealedBook;

pub mod actions;
pub mod opening;
pub mod questions;
pub mod words;

/// The lent words, the slots, and the registers.
pub struct Store<'m> {
    // Kept: lent words, read and written at computed places; that is a rule of the project.
    pub(crate) memory: &'m mut [u32],
    pub(crate) slots: Slots,
    pub(crate) room: u32,
    pub(crate) top: u32,
    pub(crate) next: u64,
    pub(crate) book: SealedBook,
}

// Kept: a derived `Drop` has no contract, and this one promises what the lender finds, of each heap's own store.
impl<'m> Drop for Store<'m> {
    /// Lets the heap go: the lent words stay as the last call left them.
    fn drop(self)
        ensures { self.exit.0.now ≡ self.entry.memory.now }
    {
        let Store {
            memory: _,
            slots: _,
            room: _,
            top: _,
            next: _,
            book: _,
        } = self;
    }
}
