//! The slots of a heap: what each holds, and how many there are.

ghost use Rattle.std.specs.Prelude.{◌≡◌, ◌≤◌, replicate, slice_index, slice_set};
ghost use Rattle.graph.specs.Opening.{asked_opening, bad_opening, unless_bad};
ghost use Rattle.graph.specs.Tests.{tested};

use crate::layout::MAX_SLOTS;
use crate::opening::is_bad;
use kinds::refusal::Refusal;

/// Slots numbered from 0. Each holds a reference: 0 if it is empty, else 1 more than the address of its record.
// Kept: 64 places and a count, since a heap lies in fixed memory; 0 is an empty slot, since a call copies words of the
// lent memory into slots and back, and these words write an empty reference as 0.
#[derive(Clone, Copy)]
pub struct Slots {
    held: [u32; MAX_SLOTS],
    count: u32,
    ghost few: { count ≤ 64 },
}

impl Slots {
    /// So many empty slots; none where the opening over so many words with this first number is bad.
    pub fn open(words: usize, slots: u32, first: u32) -> Slots
        ensures held { result.held ≡ replicate 64 0 }
        ensures count { result.count ≡ unless_bad (bad_opening words slots first) slots }
    {
        let count = if is_bad(words, slots, first) {
            0
        } else {
            slots
        };
        Slots {
            held: [0; MAX_SLOTS],
            count,
        }
    }

    /// The number of slots.
    pub fn count(&self) -> u32
        ensures { result ≡ self.now.count }
    {
        self.count
    }

    /// What a slot holds; a slot past the 64 places holds nothing.
    pub fn get(&self, slot: u32) -> u32
        ensures { result ≡ slice_index self.now.held slot }
    {
        self.held.get(slot as usize).copied().unwrap_or(0)
    }

    /// Puts a reference into a slot; one past the 64 places is left out.
    // Kept: a test and an index, since the check's contract of `get_mut` names no element of an array.
    pub fn set(&mut self, slot: u32, reference: u32)
        ensures held { self.new.held ≡ slice_set self.old.held slot reference }
        ensures count { self.new.count ≡ self.old.count }
    {
        if (slot as usize) < MAX_SLOTS {
            self.held[slot as usize] = reference;
        }
    }

    /// Was the opening good? It is refused with 10 exactly if there are no slots.
    // Kept: a bad opening gives a heap of no slots, and this question returns 10; that is a rule of the project.
    pub fn opening(&self) -> Result<(), Refusal>
        ensures { tested result ≡ asked_opening self.now.count }
    {
        if self.count == 0 {
            return Err(Refusal::BadOpening);
        }
        Ok(())
    }
}
