//! The copying heap: a cycle with calls between its steps, and a keeper that makes without end.

use crate::books::book_of;
use copying::heap::Copying;
use graph::collected::Collected;
use graph::heap::Heap;
use keeper::keeper::Keeper;
use keeper::together::make_and_settle;
use kinds::refusal::Refusal;
use pacing::by_word::ByWord;
use std::process::Abort;
use std::test::Fail;
use tally::tallied::Tally;

/// A kind of two fields: field 0 is a reference, field 1 a word, so a charge of 4.
const LINK: [u32; 3] = [2, 0, 1];

/// Two records, the first linked to the second, which no slot holds any more.
fn make_two<H: Heap>(heap: &mut H) -> Result<u32, Refusal> {
    heap.make(0, 0)?;
    heap.write(0, 1, 7)?;
    heap.make(1, 0)?;
    heap.write(1, 1, 8)?;
    heap.link(0, 0, 1)?;
    heap.drop(1)?;
    Ok(heap.spare())
}

#[test]
fn writes_between_steps_are_kept(rt: HostRuntime) -> Result<(), Fail> {
    let mut words = [0u32; 41];
    let mut heap = Copying::open(&mut words, 3, book_of(&LINK)?, 100);
    assert_eq!(rt; heap.opening(), Ok(()));
    assert_eq!(rt; make_two(&mut heap), Ok(12));
    assert_eq!(rt; heap.idle(6), (6, false));
    assert_eq!(rt; heap.write(0, 1, 9), Ok(()));
    assert_eq!(rt; heap.idle(1), (1, false));
    assert_eq!(rt; heap.read(0, 1), Ok(9));
    assert_eq!(rt; heap.write(0, 1, 10), Ok(()));
    assert_eq!(rt; heap.spare(), 12);
    assert_eq!(rt; heap.idle(100), (4, true));
    assert_eq!(rt; heap.read(0, 1), Ok(10));
    assert_eq!(rt; heap.follow(0, 0, 2), Ok(()));
    assert_eq!(rt; heap.look(2), Ok((101, 0)));
    assert_eq!(rt; heap.read(2, 1), Ok(8));
    Ok(())
}

#[test]
fn cycle_frees_what_is_dropped(rt: HostRuntime) -> Result<(), Fail> {
    let mut words = [0u32; 40];
    let mut heap = Copying::open(&mut words, 1, book_of(&LINK)?, 1);
    assert_eq!(rt; heap.make(0, 0), Ok(1));
    assert_eq!(rt; heap.link(0, 0, 0), Ok(()));
    assert_eq!(rt; heap.drop(0), Ok(()));
    assert_eq!(rt; heap.spare(), 16);
    assert_eq!(rt; heap.idle(9), (3, true));
    assert_eq!(rt; heap.spare(), 20);
    assert_eq!(rt; heap.step(), false);
    Ok(())
}

/// Makes 59 records in one slot, and settles each bill at once.
fn make_without_end<H: Collected + Drop>(rt: &impl Abort, heap: H) -> Result<(), Fail> {
    let mut keeper = Keeper::new(Tally::new(heap), ByWord::new(3));
    for number in 1..60 {
        let (made, _) = make_and_settle(&mut keeper, 0, 0)?;
        assert_eq!(rt; made, number);
    }
    assert_eq!(rt; keeper.heap().makes(), 59);
    Ok(())
}

#[test]
fn keeper_never_runs_out_of_words(rt: HostRuntime) -> Result<(), Fail> {
    let mut words = [0u32; 80];
    make_without_end(&rt, Copying::open(&mut words, 1, book_of(&LINK)?, 1))
}
