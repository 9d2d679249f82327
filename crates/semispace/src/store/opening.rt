//! The words and registers of a heap just opened.

ghost use Rattle.std.specs.Prelude.{◌≡◌};
ghost use Rattle.kinds.specs.Books.{kinds_of};
ghost use Rattle.semispace.specs.View.{view};
ghost use Rattle.semispace.specs.Opening.{opened};

use super::Store;
use crate::collector::Collector;
use crate::halves::Halves;
use graph::slots::Slots;
use kinds::book::SealedBook;

// Kept: as the straight heap's store has it, where the registers are others.
impl<'m> Store<'m> {
    /// Empty slots over two halves of the lent words; no slots and halves of no words where the opening is bad.
    pub fn open(memory: &'m mut [u32], slots: u32, book: SealedBook, first: u32) -> Store<'m>
        ensures { view result ≡ opened memory.old slots (kinds_of book) first }
    {
        let words = memory.len();
        let slots = Slots::open(words, slots, first);
        let size = if slots.count() == 0 {
            0
        } else {
            (words / 2) as u32
        };
        let halves = Halves {
            size,
            base: 0,
            low: 0,
            high: size,
            old_low: 0,
            old_high: size,
        };
        Store {
            memory,
            slots,
            book,
            next: u64::from(first),
            spare: size,
            halves,
            collector: Collector::Rest,
        }
    }
}
