//! The words and registers of a heap just opened.

ghost use Rattle.std.specs.Prelude.{◌≡◌};
ghost use Rattle.kinds.specs.Books.{kinds_of};
ghost use Rattle.straight.specs.Stored.{state};
ghost use Rattle.straight.specs.Opening.{opened};

use super::Store;
use graph::slots::Slots;
use kinds::book::SealedBook;

// Kept: as the copying heap's store has it, where the registers are others.
impl<'m> Store<'m> {
    /// Empty slots over the lent words; no slots and no room where the opening is bad.
    pub(crate) fn open(memory: &'m mut [u32], slots: u32, book: SealedBook, first: u32) -> Store<'m>
        ensures { state result ≡ opened memory.old slots (kinds_of book) first }
    {
        let words = memory.len();
        let slots = Slots::open(words, slots, first);
        let room = if slots.count() == 0 { 0 } else { words as u32 };
        Store {
            memory,
            slots,
            room,
            top: 0,
            next: u64::from(first),
            book,
        }
    }
}
