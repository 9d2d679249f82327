//! Books for the tests.

use kinds::book::{Book, SealedBook};
use kinds::refusal::Refusal;

/// A sealed book of the one kind that the numbers write; the kind gets the number 0.
pub(crate) fn book_of(numbers: &[u32]) -> Result<SealedBook, Refusal> {
    let mut book = Book::new();
    book.add(numbers)?;
    Ok(book.seal())
}
