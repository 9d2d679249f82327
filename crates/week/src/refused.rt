//! Calls that a heap refuses, each with its number.

use graph::heap::Heap;
use kinds::refusal::Refusal;
use std::io;

/// Prints what a call answered, or the number of its refusal.
fn tell(rt: &HostRuntime, what: &str, answer: Result<u32, Refusal>) -> io::Result<()> {
    match answer {
        Ok(number) => println!(rt; "{what}: {number}"),
        Err(why) => println!(rt; "{what}: no {}", why.number()),
    }
}

/// What a user would meet: a slot that is not there, an unknown kind, an empty slot, a wrong field, a full heap.
pub(crate) fn show<H: Heap>(rt: &HostRuntime, heap: &mut H) -> io::Result<()> {
    tell(rt, "read slot 4, which is not there", heap.read(4, 0))?;
    tell(
        rt,
        "make a record of kind 1, which the book has not",
        heap.make(3, 1),
    )?;
    tell(rt, "read the empty slot 3", heap.read(3, 0))?;
    tell(rt, "read field 3 of three fields", heap.read(0, 3))?;
    tell(rt, "read the link as a word", heap.read(0, 2))?;
    tell(rt, "make a fifth record of five words", heap.make(3, 0))?;
    tell(
        rt,
        "the newest record's strain is still there",
        heap.read(0, 1),
    )
}
