//! Questions about slots, kinds and numbers.

ghost use Rattle.std.specs.Prelude.{◌≡◌, ◌+◌, ◌-◌, ◌<◌, ◌≤◌, length, slice_index};
ghost use Rattle.semispace.specs.View.{view};
ghost use Rattle.semispace.specs.Words.{fields_of, fields_at, kind_at, refers as Refers};
ghost use Rattle.semispace.specs.Sound.{opened_at, number as Number};
ghost use Rattle.semispace.specs.Callings.{held_at, Full, Numbered};

use super::Store;
use crate::collector::Collector;
use graph::layout::charge;

// Kept: `Full` stands in several contracts as a named fact and not in a type, since it is of a store and a caller's number.
impl<'m> Store<'m> {
    /// The number of kinds.
    pub fn kinds(&self) -> u32
        ensures { result ≡ length (view self.now).book }
    {
        self.book.kinds()
    }

    /// The charge of a kind.
    pub fn charge(&self, kind: u32) -> u32
        ensures { result ≡ 2 + fields_of (view self.now).book kind }
    {
        charge(&self.book, kind)
    }

    /// The reference that a slot holds: 0, or 1 more than an address.
    pub fn slot(&self, slot: u32) -> u32
        ensures { result ≡ slice_index (view self.now).slots slot }
    {
        self.slots.get(slot)
    }

    /// The address of a full slot's record.
    pub(super) fn held_at(&self, slot: u32) -> u32
        requires { 0 < slice_index (view self.now).slots slot }
        ensures { result ≡ held_at (view self.now) slot }
    {
        self.slot(slot) - 1
    }

    /// The number of fields of a full slot's record.
    pub fn fields_held(&self, slot: u32) -> u32
        requires { Full (view self.now) slot }
        ensures { result ≡ fields_at (view self.now) (held_at (view self.now) slot) }
    {
        self.book.fields(self.kind_at(self.held_at(slot)))
    }

    /// Is a field of a full slot's record a reference?
    pub fn refers_held(&self, slot: u32, field: u32) -> bool
        requires { Full (view self.now) slot }
        ensures { result ≡ Refers (view self.now).book (kind_at (view self.now) (held_at (view self.now) slot)) field }
    {
        self.book.refers(self.kind_at(self.held_at(slot)), field)
    }

    /// Has the place at `at` been opened? Records made in the cycle count as opened.
    fn opened(&self, at: u32) -> bool
        ensures { result ≡ opened_at self.now.halves self.now.collector at }
    {
        self.halves.base + self.halves.high <= at
            || at < self.front()
            || at == self.front() && matches!(self.collector, Collector::Field { .. })
    }

    /// The number of the record at `at`: of a place that is not opened yet, its old record's.
    #[tactic(auto, unfolding(crate::specs::Sound::number))]
    pub(crate) fn number(&self, at: u32) -> u32
        requires { Numbered (view self.now) at }
        ensures { result ≡ Number (view self.now) at }
    {
        if self.halves.leads_new(at + 1) && !self.opened(at) {
            return self.word(self.word(at) - 1);
        }
        self.word(at)
    }

    /// Number and kind of a full slot's record.
    pub fn described(&self, slot: u32) -> (u32, u32)
        requires full { Full (view self.now) slot }
        requires numbered { Numbered (view self.now) (held_at (view self.now) slot) }
        ensures number { result.0 ≡ Number (view self.now) (held_at (view self.now) slot) }
        ensures kind { result.1 ≡ kind_at (view self.now) (held_at (view self.now) slot) }
    {
        let at = self.held_at(slot);
        (self.number(at), self.kind_at(at))
    }
}
