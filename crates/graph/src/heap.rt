//! What every heap is: calls on slots, proved against one meaning.

ghost use Rattle.std.specs.Prelude.{◌≡◌};
ghost use Rattle.graph.specs.Meaning.{Meaning, Bounded, Called, Reply};
ghost use Rattle.graph.specs.Meaning.Reply.{gave};
ghost use Rattle.graph.specs.Replies.{as_word, as_done, as_known};
ghost use Rattle.graph.specs.Calls.{Call};
ghost use Rattle.graph.specs.Calls.Answer.{word as Word};
ghost use Rattle.graph.specs.Calls.Call.{make as Make, read as Read, write as Write, follow as Follow, link as Link, hold as Hold, drop as Dropped, look as Look, spare as Spare};

use kinds::refusal::Refusal;

/// A memory for linked records. Slot, kind and field numbers and words are any `u32`; a call that cannot be made is refused.
pub trait Heap {
    /// What the heap means: graph, book, charges, capacity, fixed steps, spare, due and kept.
    ghost meaning: { Self → Meaning };

    /// A fact about every heap: how large its numbers are.
    ghost bounded: { (s : Self) → Bounded (meaning s) };

    /// What a call does in the heap's own terms: from a state it gives a reply and leaves a state.
    ghost acts: { Self → Call → Reply → Self → Type 0 };

    /// Puts a new record of the kind into the slot, its words 0 and its references empty; answers its number.
    fn make(&mut self, slot: u32, kind: u32) -> Result<u32, Refusal>
        ensures means { Called (meaning self.old) (Make slot kind) (as_word result) (meaning self.new) }
        ensures acts { acts self.old (Make slot kind) (as_word result) self.new };

    /// Answers a word field of the slot's record.
    fn read(&mut self, slot: u32, field: u32) -> Result<u32, Refusal>
        ensures means { Called (meaning self.old) (Read slot field) (as_word result) (meaning self.new) }
        ensures acts { acts self.old (Read slot field) (as_word result) self.new };

    /// Sets a word field of the slot's record.
    fn write(&mut self, slot: u32, field: u32, word: u32) -> Result<(), Refusal>
        ensures means { Called (meaning self.old) (Write slot field word) (as_done result) (meaning self.new) }
        ensures acts { acts self.old (Write slot field word) (as_done result) self.new };

    /// Puts what a reference field of the slot's record names into slot `to`.
    fn follow(&mut self, slot: u32, field: u32, to: u32) -> Result<(), Refusal>
        ensures means { Called (meaning self.old) (Follow slot field to) (as_done result) (meaning self.new) }
        ensures acts { acts self.old (Follow slot field to) (as_done result) self.new };

    /// Sets a reference field of the slot's record to what slot `from` holds.
    fn link(&mut self, slot: u32, field: u32, from: u32) -> Result<(), Refusal>
        ensures means { Called (meaning self.old) (Link slot field from) (as_done result) (meaning self.new) }
        ensures acts { acts self.old (Link slot field from) (as_done result) self.new };

    /// Puts what the slot holds into slot `to`.
    fn hold(&mut self, slot: u32, to: u32) -> Result<(), Refusal>
        ensures means { Called (meaning self.old) (Hold slot to) (as_done result) (meaning self.new) }
        ensures acts { acts self.old (Hold slot to) (as_done result) self.new };

    /// Empties the slot.
    fn drop(&mut self, slot: u32) -> Result<(), Refusal>
        ensures means { Called (meaning self.old) (Dropped slot) (as_done result) (meaning self.new) }
        ensures acts { acts self.old (Dropped slot) (as_done result) self.new };

    /// Answers number and kind of the slot's record, both 0 for an empty slot.
    // Kept: a pair, 0 and 0 for an empty slot; that is a rule of the project.
    fn look(&mut self, slot: u32) -> Result<(u32, u32), Refusal>
        ensures means { Called (meaning self.old) (Look slot) (as_known result) (meaning self.new) }
        ensures acts { acts self.old (Look slot) (as_known result) self.new };

    /// Answers the spare words. It is never refused.
    fn spare(&self) -> u32
        ensures means { Called (meaning self.now) Spare (gave (Word result)) (meaning self.now) }
        ensures acts { acts self.now Spare (gave (Word result)) self.now };

    /// Answers the capacity. It is no call of the graph: layers that count words in use ask it.
    fn capacity(&self) -> u32
        ensures { result ≡ (meaning self.now).capacity };
}
