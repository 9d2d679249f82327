//! The example of `README.md`, as it stands there, and what it answers.

use graph::heap::Heap;
use kinds::book::{Book, SealedBook};
use kinds::refusal::Refusal;
use straight::heap::Straight;

/// A book of one kind, which gets the number 0: three fields, of which field 2 is a reference.
// Kept: as README.md has it, though `book_of` of the other tests does the same.
fn axles() -> Result<SealedBook, Refusal> {
    let mut book = Book::new();
    book.add(&[3, 2, 1])?;
    Ok(book.seal())
}

/// Links a second record to a first, and reads a word of the first through the link.
fn linked<H: Heap>(heap: &mut H) -> Result<u32, Refusal> {
    heap.make(0, 0)?; // slot 0 holds a new record of kind 0
    heap.write(0, 1, 120)?; // its field 1 is 120
    heap.make(1, 0)?; // slot 1 holds another
    heap.link(1, 2, 0)?; // field 2 of that names the record of slot 0
    heap.drop(0)?; // slot 0 is empty; its record is still reached
    heap.follow(1, 2, 0)?; // slot 0 holds what the field names
    heap.read(0, 1) // 120
}

/// Opens a straight heap of two slots over lent words; the first record gets the number 1.
fn story(words: &mut [u32]) -> Result<u32, Refusal> {
    let mut heap = Straight::open(words, 2, axles()?, 1);
    heap.opening()?;
    linked(&mut heap)
}

#[test]
fn story_reads_through_the_link(rt: HostRuntime) {
    let mut words = [7u32; 10];
    assert_eq!(rt; story(&mut words), Ok(120));
    assert_eq!(rt; words, [1, 0, 0, 120, 0, 2, 0, 0, 0, 1]);
}

#[test]
fn story_needs_ten_words(rt: HostRuntime) {
    let mut words = [7u32; 9];
    assert_eq!(rt; story(&mut words), Err(Refusal::NoSpace));
}
