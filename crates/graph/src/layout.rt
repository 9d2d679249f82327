//! What the heaps over lent words have in common: the head of a record, its charge, the last number, and
//! how many words and slots a heap takes.

ghost use Rattle.std.specs.Prelude.{◌≡◌, ◌+◌};
ghost use Rattle.kinds.specs.Books.{kinds_of};
ghost use Rattle.graph.specs.Graph.{size};

use kinds::book::SealedBook;

/// The words of a record before its fields: its number and its kind.
pub const HEAD: u32 = 2;

/// The most words that a heap takes.
pub const MAX_WORDS: usize = 16_384;

/// The most slots that a heap has.
pub const MAX_SLOTS: usize = 64;

/// The last number that a record gets.
pub const LAST_NUMBER: u64 = u32::MAX as u64;

/// The words of a record of the kind; those of its head where the book has no such kind.
pub fn charge(book: &SealedBook, kind: u32) -> u32
    ensures { result ≡ 2 + size (kinds_of book.now) kind }
{
    HEAD + book.fields(kind)
}
