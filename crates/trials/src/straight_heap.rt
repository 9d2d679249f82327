//! The straight heap at its limits.

use crate::books::book_of;
use graph::heap::Heap;
use kinds::refusal::Refusal;
use std::process::Abort;
use std::test::Fail;
use straight::heap::Straight;

/// A kind of two word fields, so a charge of 4.
const PAIR: [u32; 1] = [2];

/// What a heap says of a bad opening, and what its calls say.
fn check_bad<H: Heap + Drop>(rt: &impl Abort, mut heap: H) {
    assert_eq!(rt; heap.make(0, 0), Err(Refusal::NoSlot));
    assert_eq!(rt; heap.look(0), Err(Refusal::NoSlot));
    assert_eq!(rt; heap.capacity(), 0);
    assert_eq!(rt; heap.spare(), 0);
}

fn open_badly(rt: &impl Abort, words: &mut [u32], slots: u32, first: u32) -> Result<(), Fail> {
    let heap = Straight::open(words, slots, book_of(&PAIR)?, first);
    assert_eq!(rt; heap.opening(), Err(Refusal::BadOpening));
    assert_eq!(rt; heap.memory().first().copied(), Some(7));
    check_bad(rt, heap);
    Ok(())
}

#[test]
fn fifth_make_finds_no_space(rt: HostRuntime) -> Result<(), Fail> {
    let mut words = [7u32; 16];
    let mut heap = Straight::open(&mut words, 1, book_of(&PAIR)?, 1);
    assert_eq!(rt; heap.opening(), Ok(()));
    for number in 1..5 {
        assert_eq!(rt; heap.make(0, 0), Ok(number));
    }
    assert_eq!(rt; heap.make(0, 0), Err(Refusal::NoSpace));
    assert_eq!(rt; heap.spare(), 0);
    Ok(())
}

#[test]
fn last_number_is_given_once(rt: HostRuntime) -> Result<(), Fail> {
    let mut words = [0u32; 16];
    let mut heap = Straight::open(&mut words, 1, book_of(&PAIR)?, 4_294_967_295);
    assert_eq!(rt; heap.make(0, 0), Ok(4_294_967_295));
    assert_eq!(rt; heap.make(0, 0), Err(Refusal::NumbersSpent));
    assert_eq!(rt; heap.spare(), 12);
    Ok(())
}

#[test]
fn bad_openings(rt: HostRuntime) -> Result<(), Fail> {
    let mut long = [7u32; 16_385];
    open_badly(&rt, &mut long, 1, 1)?;
    let mut words = [7u32; 16];
    open_badly(&rt, &mut words, 0, 1)?;
    open_badly(&rt, &mut words, 65, 1)?;
    open_badly(&rt, &mut words, 1, 0)
}
