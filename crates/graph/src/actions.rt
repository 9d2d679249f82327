//! The calls, written once over any space of records: first the tests, then the action.

ghost use Rattle.graph.specs.Meaning.{Called};
ghost use Rattle.graph.specs.Replies.{as_word, as_done, as_known};
ghost use Rattle.graph.specs.Calls.Call.{make as Make, read as Read, write as Write, follow as Follow, link as Link, hold as Hold, drop as Dropped, look as Look};

use crate::record_space::RecordSpace;
use crate::refusals::{test_make, test_reference, test_slot, test_slots, test_word};
use kinds::refusal::Refusal;

/// Puts a new record of the kind into the slot; answers its number.
pub fn make<S: RecordSpace>(space: &mut S, slot: u32, kind: u32) -> Result<u32, Refusal>
    ensures means { Called (S.RecordSpace.meaning space.old) (Make slot kind) (as_word result) (S.RecordSpace.meaning space.new) }
    ensures acts { S.RecordSpace.acts space.old (Make slot kind) (as_word result) space.new }
{
    test_make(space, slot, kind)?;
    Ok(space.create(slot, kind))
}

/// Answers a word field of the slot's record.
pub fn read<S: RecordSpace>(space: &mut S, slot: u32, field: u32) -> Result<u32, Refusal>
    ensures means { Called (S.RecordSpace.meaning space.old) (Read slot field) (as_word result) (S.RecordSpace.meaning space.new) }
    ensures acts { S.RecordSpace.acts space.old (Read slot field) (as_word result) space.new }
{
    test_word(space, slot, field)?;
    Ok(space.load(slot, field))
}

/// Sets a word field of the slot's record.
pub fn write<S: RecordSpace>(space: &mut S, slot: u32, field: u32, word: u32) -> Result<(), Refusal>
    ensures means { Called (S.RecordSpace.meaning space.old) (Write slot field word) (as_done result) (S.RecordSpace.meaning space.new) }
    ensures acts { S.RecordSpace.acts space.old (Write slot field word) (as_done result) space.new }
{
    test_word(space, slot, field)?;
    space.store(slot, field, word);
    Ok(())
}

/// Puts what a reference field names into a slot.
pub fn follow<S: RecordSpace>(space: &mut S, slot: u32, field: u32, to: u32) -> Result<(), Refusal>
    ensures means { Called (S.RecordSpace.meaning space.old) (Follow slot field to) (as_done result) (S.RecordSpace.meaning space.new) }
    ensures acts { S.RecordSpace.acts space.old (Follow slot field to) (as_done result) space.new }
{
    test_reference(space, slot, field, to)?;
    space.load_reference(slot, field, to);
    Ok(())
}

/// Sets a reference field to what a slot holds.
pub fn link<S: RecordSpace>(space: &mut S, slot: u32, field: u32, from: u32) -> Result<(), Refusal>
    ensures means { Called (S.RecordSpace.meaning space.old) (Link slot field from) (as_done result) (S.RecordSpace.meaning space.new) }
    ensures acts { S.RecordSpace.acts space.old (Link slot field from) (as_done result) space.new }
{
    test_reference(space, slot, field, from)?;
    space.store_reference(slot, field, from);
    Ok(())
}

/// Puts what a slot holds into another.
pub fn hold<S: RecordSpace>(space: &mut S, slot: u32, to: u32) -> Result<(), Refusal>
    ensures means { Called (S.RecordSpace.meaning space.old) (Hold slot to) (as_done result) (S.RecordSpace.meaning space.new) }
    ensures acts { S.RecordSpace.acts space.old (Hold slot to) (as_done result) space.new }
{
    test_slots(space, slot, to)?;
    space.copy_slot(slot, to);
    Ok(())
}

/// Empties a slot.
pub fn drop<S: RecordSpace>(space: &mut S, slot: u32) -> Result<(), Refusal>
    ensures means { Called (S.RecordSpace.meaning space.old) (Dropped slot) (as_done result) (S.RecordSpace.meaning space.new) }
    ensures acts { S.RecordSpace.acts space.old (Dropped slot) (as_done result) space.new }
{
    test_slot(space, slot)?;
    space.clear_slot(slot);
    Ok(())
}

/// Answers number and kind of a slot's record, both 0 for an empty slot.
pub fn look<S: RecordSpace>(space: &mut S, slot: u32) -> Result<(u32, u32), Refusal>
    ensures means { Called (S.RecordSpace.meaning space.old) (Look slot) (as_known result) (S.RecordSpace.meaning space.new) }
    ensures acts { S.RecordSpace.acts space.old (Look slot) (as_known result) space.new }
{
    test_slot(space, slot)?;
    Ok(space.describe(slot))
}
