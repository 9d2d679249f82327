//! The pacings, and the calls of the keeper over a tally of a hollow heap.

use crate::hollow::Hollow;
use graph::collected::Collected;
use graph::heap::Heap;
use keeper::keeper::Keeper;
use keeper::together::make_and_settle;
use kinds::refusal::Refusal;
use pacing::by_mark::ByMark;
use pacing::by_word::ByWord;
use pacing::pace::Pacing;
use tally::tallied::Tally;

#[test]
fn pacings_ask_for_what_is_missing(rt: HostRuntime) {
    let by_word = ByWord::new(3);
    assert_eq!(rt; by_word.owed(12, 4, 0), 0);
    assert_eq!(rt; by_word.owed(11, 4, 0), 1);
    assert_eq!(rt; ByWord::new(0).owed(0, 4, 0), 4);
    assert_eq!(rt; ByWord::new(2000).owed(0, 1, 0), 1024);
    let by_mark = ByMark::new(3, 10);
    assert_eq!(rt; by_mark.owed(11, 4, 10), 1);
    assert_eq!(rt; by_mark.owed(11, 4, 9), 131_072);
}

#[test]
fn keeper_passes_every_call_on(rt: HostRuntime) {
    let mut keeper = Keeper::new(Tally::new(Hollow::new(1)), ByWord::new(3));
    assert_eq!(rt; make_and_settle(&mut keeper, 0, 0), Err(Refusal::NoSlot));
    assert_eq!(rt; keeper.read(0, 0), Err(Refusal::NoSlot));
    assert_eq!(rt; keeper.write(0, 0, 7), Err(Refusal::NoSlot));
    assert_eq!(rt; keeper.follow(0, 0, 0), Err(Refusal::NoSlot));
    assert_eq!(rt; keeper.link(0, 0, 0), Err(Refusal::NoSlot));
    assert_eq!(rt; keeper.hold(0, 0), Err(Refusal::NoSlot));
    assert_eq!(rt; keeper.drop(0), Err(Refusal::NoSlot));
    assert_eq!(rt; keeper.look(0), Err(Refusal::NoSlot));
    assert_eq!(rt; keeper.spare(), 0);
    assert_eq!(rt; keeper.idle(9), (1, true));
    assert_eq!(rt; keeper.idle(0), (0, false));
    assert_eq!(rt; keeper.heap().refusals(), 8);
    assert_eq!(rt; keeper.heap().makes(), 0);
    assert_eq!(rt; keeper.heap().steps(), 1);
    assert_eq!(rt; keeper.heap().highest(), 0);
}
