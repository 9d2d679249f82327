//! The opening of a copying heap, the question about it, and the words that were lent.

ghost use Rattle.std.specs.Prelude.{◌≡◌, length, if◌then◌else◌};
ghost use Rattle.kinds.specs.Books.{kinds_of};
ghost use Rattle.graph.specs.Meaning.{Opened};
ghost use Rattle.graph.specs.Tests.{tested};
ghost use Rattle.semispace.specs.View.{view};
ghost use Rattle.semispace.specs.Collected.{meaning_of};
ghost use Rattle.graph.specs.Opening.{bad_opening};
ghost use Rattle.semispace.specs.Opening.{opened, opened_meaning, opening_refusal};

use super::Copying;
use kinds::book::SealedBook;
use kinds::refusal::Refusal;
use semispace::store::Store;

// Kept: as the straight heap has it; three lines of code, whose contracts speak of this heap's own state. A trait for them
// would have to be imported by every program that opens a heap. Slots, book and first number stay single arguments, as
// programs hand them in.
impl<'m> Copying<'m> {
    /// Opens a heap over the lent words. A bad opening gives a heap of no slots and no words, over the same lent words.
    pub fn open(memory: &'m mut [u32], slots: u32, book: SealedBook, first: u32) -> Copying<'m>
        ensures state { view result.store ≡ opened memory.old slots (kinds_of book) first }
        ensures means { meaning_of (view result.store) ≡ opened_meaning (length memory.old) slots (kinds_of book) first }
        ensures opened { Opened first (meaning_of (view result.store)) }
        ensures question { opening_refusal (view result.store) ≡ (if bad_opening (length memory.old) slots first then 10 else 0) }
    {
        Copying {
            store: Store::open(memory, slots, book, first),
        }
    }

    /// Was the opening good? It is refused with 10 exactly if it was bad.
    pub fn opening(&self) -> Result<(), Refusal>
        ensures { tested result ≡ opening_refusal (view self.now.store) }
    {
        self.store.slots.opening()
    }

    /// The lent words, all of them.
    pub fn memory(&self) -> &[u32]
        ensures { result.now ≡ (view self.now.store).memory }
    {
        self.store.memory
    }
}
