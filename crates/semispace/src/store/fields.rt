//! Where the fields of a half-moved record are, and the words of a new record.

ghost use Rattle.std.specs.Prelude.{◌≡◌, ◌+◌, ◌-◌, ◌<◌, ◌≤◌};
ghost use Rattle.graph.specs.Clearing.{cleared};
ghost use Rattle.semispace.specs.View.{view};
ghost use Rattle.semispace.specs.Words.{both_halves, word_at, put_at, front as Front, filled as Filled, own as Own, source as Source, home as Home, Found, set_memory, made_record, made_at, fields_of};

use super::Store;
use crate::collector::Collector;
use graph::layout::HEAD;
use graph::words::clear;

// Kept: `Found` stands in several contracts as a named fact and not in a type, since it is of a store, an address and a
// field; these two stay two numbers, since each call makes them anew.
impl<'m> Store<'m> {
    /// Where the places begin that have not been closed.
    pub(super) fn front(&self) -> u32
        ensures { result ≡ Front self.now.halves.base self.now.halves.size self.now.collector }
    {
        match self.collector {
            Collector::Rest => self.halves.base + self.halves.size,
            Collector::Slots { .. } => self.halves.base,
            Collector::Scan { at } => at,
            Collector::Field { cursor } => cursor.at,
        }
    }

    /// How many fields of the first of them have been copied.
    fn filled(&self) -> u32
        ensures { result ≡ Filled self.now.collector }
    {
        match self.collector {
            Collector::Field { cursor } => cursor.field,
            _ => 0,
        }
    }

    /// Is field `i` of the record at `at` in the new half already its own?
    fn owns(&self, at: u32, i: u32) -> bool
        ensures { result ≡ Own self.now.halves self.now.collector at i }
    {
        self.halves.base + self.halves.high <= at
            || at < self.front()
            || at == self.front() && i < self.filled()
    }

    /// The old record of a place.
    fn source(&self, at: u32) -> u32
        requires inside { at < both_halves (view self.now) }
        requires some { 0 < word_at (view self.now) at }
        ensures { result ≡ Source (view self.now).memory self.now.collector at }
    {
        match self.collector {
            Collector::Field { cursor } if at == cursor.at => cursor.from,
            _ => self.word(at) - 1,
        }
    }

    /// The record that has field `i` of the record at `at` now: the new copy if the field has been copied, else the old one.
    fn home(&self, at: u32, i: u32) -> u32
        requires { Found (view self.now) at i }
        ensures { result ≡ Home (view self.now) at i }
    {
        if self.halves.leads_new(at + 1) {
            return if self.owns(at, i) {
                at
            } else {
                self.source(at)
            };
        }
        match self.place_of(at) {
            Some(place) if self.owns(place - 1, i) => place - 1,
            _ => at,
        }
    }

    pub(crate) fn field(&self, at: u32, i: u32) -> u32
        requires { Found (view self.now) at i }
        ensures { result ≡ word_at (view self.now) (Home (view self.now) at i + (2 + i)) }
    {
        self.word(self.home(at, i) + (HEAD + i))
    }

    pub(crate) fn put_field(&mut self, at: u32, i: u32, word: u32)
        requires { Found (view self.old) at i }
        ensures { view self.new ≡ put_at (view self.old) (Home (view self.old) at i + (2 + i)) word }
    {
        let place = self.home(at, i) + (HEAD + i);
        self.put(place, word);
    }

    /// Puts a record of the kind at the high end; gives its address.
    pub(super) fn place_record(&mut self, kind: u32, number: u32) -> u32
        requires { self.old.halves.low + (2 + fields_of (view self.old).book kind) ≤ self.old.halves.high }
        ensures at { result ≡ made_at (view self.old) kind }
        ensures after { view self.new ≡ made_record (view self.old) kind number }
    {
        let fields = self.book.fields(kind);
        self.halves = self.halves.lowered(HEAD + fields);
        let at = self.halves.base + self.halves.high;
        self.put(at, number);
        self.put(at + 1, kind);
        clear(self.memory, at + HEAD, fields);
        at
    }
}
