//! The tests of refusals, in their order: 1 the slots, 2 the kind, 3 to 5 the field, 6 the space, 7 the numbers.

ghost use Rattle.std.specs.Prelude.{◌≡◌, ◌<◌, length};
ghost use Rattle.graph.specs.Calls.{field_refusal};
ghost use Rattle.graph.specs.Calls.Call.{make as Make, read as Read, follow as Follow, hold as Hold, drop as Dropped};
ghost use Rattle.graph.specs.Meaning.{refusal};
ghost use Rattle.graph.specs.Tests.{tested};

use crate::record_space::RecordSpace;
use kinds::refusal::Refusal;

/// 1: is there such a slot?
pub(crate) fn test_slot<S: RecordSpace>(space: &S, slot: u32) -> Result<(), Refusal>
    ensures { tested result ≡ refusal (S.RecordSpace.meaning space.now) (Dropped slot) }
{
    if slot >= space.slots() {
        return Err(Refusal::NoSlot);
    }
    Ok(())
}

/// 1: are there both slots?
pub(crate) fn test_slots<S: RecordSpace>(space: &S, slot: u32, other: u32) -> Result<(), Refusal>
    ensures { tested result ≡ refusal (S.RecordSpace.meaning space.now) (Hold slot other) }
{
    test_slot(space, slot)?;
    test_slot(space, other)
}

/// 3, 4 and 5: has the slot's record such a field, of the sort that is wanted?
fn test_field<S: RecordSpace>(
    space: &S,
    slot: u32,
    field: u32,
    reference: bool,
) -> Result<(), Refusal>
    requires { slot < length (S.RecordSpace.meaning space.now).graph.slots }
    ensures { tested result ≡ field_refusal (S.RecordSpace.meaning space.now).book (S.RecordSpace.meaning space.now).graph slot field reference }
{
    if space.vacant(slot) {
        return Err(Refusal::EmptySlot);
    }
    if field >= space.fields(slot) {
        return Err(Refusal::NoField);
    }
    if space.refers(slot, field) != reference {
        return Err(Refusal::WrongSort);
    }
    Ok(())
}

/// 1, 3, 4 and 5: for a call on a word field.
pub(crate) fn test_word<S: RecordSpace>(space: &S, slot: u32, field: u32) -> Result<(), Refusal>
    ensures { tested result ≡ refusal (S.RecordSpace.meaning space.now) (Read slot field) }
{
    test_slot(space, slot)?;
    test_field(space, slot, field, false)
}

/// 1, 3, 4 and 5: for a call on a reference field and another slot.
pub(crate) fn test_reference<S: RecordSpace>(
    space: &S,
    slot: u32,
    field: u32,
    other: u32,
) -> Result<(), Refusal>
    ensures { tested result ≡ refusal (S.RecordSpace.meaning space.now) (Follow slot field other) }
{
    test_slots(space, slot, other)?;
    test_field(space, slot, field, true)
}

/// 1, 2, 6 and 7: is there the slot, is the kind in the book, its charge within the spare, and a number left?
pub(crate) fn test_make<S: RecordSpace>(space: &S, slot: u32, kind: u32) -> Result<(), Refusal>
    ensures { tested result ≡ refusal (S.RecordSpace.meaning space.now) (Make slot kind) }
{
    test_slot(space, slot)?;
    if kind >= space.kinds() {
        return Err(Refusal::NoKind);
    }
    if space.left() < space.charge(kind) {
        return Err(Refusal::NoSpace);
    }
    if space.spent() {
        return Err(Refusal::NumbersSpent);
    }
    Ok(())
}
