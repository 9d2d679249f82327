//! The calls of a keeper.

ghost use Rattle.std.specs.Prelude.{◌≡◌, ℕ, ◌+◌, min};
ghost use Rattle.graph.specs.Calls.Call.{make as Make, read as Read, write as Write, follow as Follow, link as Link, hold as Hold, drop as Dropped, look as Look, spare as Spare};
ghost use Rattle.graph.specs.Calls.Answer.{word as Word};
ghost use Rattle.graph.specs.Meaning.Reply.{gave};
ghost use Rattle.graph.specs.Meaning.{Opened};
ghost use Rattle.graph.specs.Replies.{as_word, as_done, as_known};
ghost use Rattle.keeper.specs.Keeping.{Event, cap, owed as Owed};
ghost use Rattle.keeper.specs.Keeping.Ask.{call as OfHeap, idle as OfIdle};
ghost use Rattle.keeper.specs.Keeping.Said.{told, idled};
ghost use Rattle.keeper.specs.History.{New};
ghost use Rattle.keeper.specs.Holding.{state, fresh, as_billed, Paired, Answered, over, by_bill, by_settled};

use super::{Bill, Keeper, NotSettled};
use graph::collected::Collected;
use graph::counting::counted;
use graph::heap::Heap;
use kinds::refusal::Refusal;
use pacing::pace::Pacing;

/// The counts stop here.
const CAP: u32 = 1_000_000;

impl<H: Collected, P: Pacing> Keeper<H, P> {
    /// Sets a keeper up over a heap and a pacing. Over a heap just opened it is new.
    pub fn new(heap: H, pacing: P) -> Keeper<H, P>
        ensures holds { state H.Heap P.Pacing result ≡ fresh H.Heap P.Pacing heap pacing }
        ensures below { result.heap ≡ heap }
        ensures starts { (first : ℕ) → Opened first (H.Heap.meaning heap) → New (state H.Heap P.Pacing result) }
    {
        Keeper {
            heap,
            pacing,
            steps: 0,
            words: 0,
            bill: None,
        }
    }

    /// The heap, for reading.
    pub fn heap(&self) -> &H
        ensures { result.now ≡ self.now.heap }
    {
        &self.heap
    }

    /// Makes a record, and gives its number with a bill. While a bill is open it is refused with 8, before every other refusal.
    pub fn make(&mut self, slot: u32, kind: u32) -> Result<(u32, Bill), Refusal>
        ensures event { Event (state H.Heap P.Pacing self.old) (OfHeap (Make slot kind)) (told (as_billed result)) (state H.Heap P.Pacing self.new) }
        ensures paired { Paired result }
        ensures acts { by_bill self.old.bill (self.new.heap ≡ self.old.heap) (H.Heap.acts self.old.heap (Make slot kind) (as_billed result) self.new.heap) }
    {
        if self.bill.is_some() {
            return Err(Refusal::BillOpen);
        }
        let before = self.heap.spare();
        let number = self.heap.make(slot, kind)?;
        let after = self.heap.spare();
        self.words = counted(self.words, u64::from(before - after), CAP);
        self.bill = Some(number);
        Ok((number, Bill { number }))
    }

    /// Answers a word field of the slot's record.
    pub fn read(&mut self, slot: u32, field: u32) -> Result<u32, Refusal>
        ensures event { Event (state H.Heap P.Pacing self.old) (OfHeap (Read slot field)) (told (as_word result)) (state H.Heap P.Pacing self.new) }
        ensures acts { H.Heap.acts self.old.heap (Read slot field) (as_word result) self.new.heap }
    {
        self.heap.read(slot, field)
    }

    /// Sets a word field of the slot's record.
    pub fn write(&mut self, slot: u32, field: u32, word: u32) -> Result<(), Refusal>
        ensures event { Event (state H.Heap P.Pacing self.old) (OfHeap (Write slot field word)) (told (as_done result)) (state H.Heap P.Pacing self.new) }
        ensures acts { H.Heap.acts self.old.heap (Write slot field word) (as_done result) self.new.heap }
    {
        self.heap.write(slot, field, word)
    }

    /// Puts what a reference field of the slot's record names into slot `to`.
    pub fn follow(&mut self, slot: u32, field: u32, to: u32) -> Result<(), Refusal>
        ensures event { Event (state H.Heap P.Pacing self.old) (OfHeap (Follow slot field to)) (told (as_done result)) (state H.Heap P.Pacing self.new) }
        ensures acts { H.Heap.acts self.old.heap (Follow slot field to) (as_done result) self.new.heap }
    {
        self.heap.follow(slot, field, to)
    }

    /// Sets a reference field of the slot's record to what slot `from` holds.
    pub fn link(&mut self, slot: u32, field: u32, from: u32) -> Result<(), Refusal>
        ensures event { Event (state H.Heap P.Pacing self.old) (OfHeap (Link slot field from)) (told (as_done result)) (state H.Heap P.Pacing self.new) }
        ensures acts { H.Heap.acts self.old.heap (Link slot field from) (as_done result) self.new.heap }
    {
        self.heap.link(slot, field, from)
    }

    /// Puts what the slot holds into slot `to`.
    pub fn hold(&mut self, slot: u32, to: u32) -> Result<(), Refusal>
        ensures event { Event (state H.Heap P.Pacing self.old) (OfHeap (Hold slot to)) (told (as_done result)) (state H.Heap P.Pacing self.new) }
        ensures acts { H.Heap.acts self.old.heap (Hold slot to) (as_done result) self.new.heap }
    {
        self.heap.hold(slot, to)
    }

    /// Empties the slot.
    pub fn drop(&mut self, slot: u32) -> Result<(), Refusal>
        ensures event { Event (state H.Heap P.Pacing self.old) (OfHeap (Dropped slot)) (told (as_done result)) (state H.Heap P.Pacing self.new) }
        ensures acts { H.Heap.acts self.old.heap (Dropped slot) (as_done result) self.new.heap }
    {
        self.heap.drop(slot)
    }

    /// Answers number and kind of the slot's record, both 0 for an empty slot.
    pub fn look(&mut self, slot: u32) -> Result<(u32, u32), Refusal>
        ensures event { Event (state H.Heap P.Pacing self.old) (OfHeap (Look slot)) (told (as_known result)) (state H.Heap P.Pacing self.new) }
        ensures acts { H.Heap.acts self.old.heap (Look slot) (as_known result) self.new.heap }
    {
        self.heap.look(slot)
    }

    /// Answers the spare words.
    pub fn spare(&self) -> u32
        ensures event { Event (state H.Heap P.Pacing self.now) (OfHeap Spare) (told (gave (Word result))) (state H.Heap P.Pacing self.now) }
        ensures acts { H.Heap.acts self.now.heap Spare (gave (Word result)) self.now.heap }
    {
        self.heap.spare()
    }

    /// Makes `count` steps of the collector, but stops with the one that ends a cycle; answers the steps made, and whether
    /// a cycle ended. Steps that are not made are not carried into the next cycle.
    pub fn idle(&mut self, count: u64) -> (u64, bool)
        ensures event { Event (state H.Heap P.Pacing self.old) (OfIdle count) (idled result.0 result.1) (state H.Heap P.Pacing self.new) }
        ensures acts { H.Collected.idles self.old.heap count result.0 result.1 self.new.heap }
    {
        let (made, ended) = self.heap.idle(count);
        if ended {
            self.steps = 0;
            self.words = 0;
        } else {
            self.steps = counted(self.steps, made, CAP);
        }
        (made, ended)
    }

    /// Spends the bill: asks the pacing with the counts and the spare as they are now, and idles just as long as it says.
    /// Answers the steps made. A bill that is not the open one is refused with 9 and handed back.
    #[tactic(auto, using(crate::proofs::Steps::tells))]
    pub fn settle(&mut self, bill: Bill) -> Result<u64, NotSettled>
        ensures event { Answered (state H.Heap P.Pacing self.old) bill.number result (state H.Heap P.Pacing self.new) }
        ensures acts { by_settled result (λ made. H.Collected.idles self.old.heap (Owed (state H.Heap P.Pacing self.old)) made (over made (state H.Heap P.Pacing self.new)) self.new.heap) (self.new.heap ≡ self.old.heap) }
    {
        if self.bill != Some(bill.number) {
            return Err(NotSettled::WrongBill(bill));
        }
        let Bill { number: _ } = bill;
        self.bill = None;
        let count = self.pacing.owed(self.steps, self.words, self.heap.spare());
        let (made, _) = self.idle(count);
        Ok(made)
    }
}
