//! The transitions of the collector, each as a function over words and registers.

ghost use Rattle.std.specs.Prelude.{◌≡◌, ◌+◌, ◌-◌, ◌*◌, ◌/◌, ◌%◌, ◌<◌};
ghost use Rattle.semispace.specs.View.{view};
ghost use Rattle.semispace.specs.Words.{both_halves, word_at, put_at, kind_at, place_of, place_met, reserved, next_place, Room, target as Aim, Forwardable, forwarded_state, forwarded_reference, slots_from, started, Passable, passed, Openable, opened, fields_from, Writable, written, Copyable, copied_field, reserved_field, finished, transition, Ready, stepped, resting as Resting, Watched, fitting_field as FittingField};

use super::Store;
use crate::collector::{Collector, Target, Transition};
use crate::cursor::Cursor;
use graph::layout::{HEAD, charge};
use kinds::book::MAX_KINDS;

/// A record's second word is its kind and this many times the reference of its place.
const KINDS: u32 = MAX_KINDS as u32;

// Kept: that an address lies in the halves is asked where it is used, since it is of a store and the address; `word` and
// `put` as the straight heap's store has them, each one line, since they promise words of their own state.
impl<'m> Store<'m> {
    pub(super) fn word(&self, at: u32) -> u32
        requires { at < both_halves (view self.now) }
        ensures { result ≡ word_at (view self.now) at }
    {
        self.memory[at as usize]
    }

    pub(super) fn put(&mut self, at: u32, word: u32)
        requires { at < both_halves (view self.old) }
        ensures { view self.new ≡ put_at (view self.old) at word }
    {
        self.memory[at as usize] = word;
    }

    pub(super) fn kind_at(&self, at: u32) -> u32
        requires { at + 1 < both_halves (view self.now) }
        ensures { result ≡ kind_at (view self.now) at }
    {
        self.word(at + 1) % KINDS
    }

    /// The reference of the place reserved for the record at `at`, if one is.
    pub(super) fn place_of(&self, at: u32) -> Option<u32>
        requires { at + 1 < both_halves (view self.now) }
        ensures { result ≡ place_met (place_of (view self.now) at) }
    {
        match self.word(at + 1) / KINDS {
            0 => None,
            place => Some(place),
        }
    }

    /// What a reference leads to.
    pub(super) fn target(&self, reference: u32) -> Target
        requires { 0 < reference → reference < both_halves (view self.now) }
        ensures { result ≡ Aim (view self.now) reference }
    {
        if reference == 0 || self.halves.leads_new(reference) {
            return Target::Settled;
        }
        match self.place_of(reference - 1) {
            Some(place) => Target::Placed { place },
            None => Target::Unplaced,
        }
    }

    /// Takes the next words at the low end for the old record at `from`; gives the place's reference.
    pub(super) fn reserve(&mut self, from: u32) -> u32
        requires { Room (view self.old) from }
        ensures place { result ≡ next_place (view self.old) + 1 }
        ensures after { view self.new ≡ reserved (view self.old) from }
    {
        let kind = self.kind_at(from);
        let place = self.halves.base + self.halves.low;
        self.put(place, from + 1);
        self.put(place + 1, kind);
        self.put(from + 1, kind + KINDS * (place + 1));
        self.halves = self.halves.grown(charge(&self.book, kind));
        place + 1
    }

    /// What a reference becomes when it is put anywhere in a cycle: the place, reserved if there is none.
    pub(super) fn forwarded(&mut self, reference: u32) -> u32
        requires { Forwardable (view self.old) reference }
        ensures reference { result ≡ forwarded_reference (view self.old) reference }
        ensures after { view self.new ≡ forwarded_state (view self.old) reference }
    {
        match self.target(reference) {
            Target::Settled => reference,
            Target::Placed { place } => place,
            Target::Unplaced => self.reserve(reference - 1),
        }
    }

    fn slots_from(&self, next: u32) -> Collector
        ensures { result ≡ slots_from (view self.now) next }
    {
        if next < self.slots.count() {
            Collector::Slots { next }
        } else {
            Collector::Scan {
                at: self.halves.base,
            }
        }
    }

    fn start(&mut self)
        ensures { view self.new ≡ started (view self.old) }
    {
        self.halves = self.halves.swapped();
        self.collector = self.slots_from(0);
    }

    fn pass_slot(&mut self, next: u32)
        requires { Passable (view self.old) next }
        ensures { view self.new ≡ passed (view self.old) next }
    {
        let held = self.slots.get(next);
        let put = self.forwarded(held);
        self.slots.set(next, put);
        self.collector = self.slots_from(next + 1);
    }

    fn fields_from(&self, cursor: Cursor) -> Collector
        requires { cursor.at + 1 < both_halves (view self.now) }
        ensures { result ≡ fields_from (view self.now) cursor }
    {
        let fields = self.book.fields(self.kind_at(cursor.at));
        if cursor.field < fields {
            Collector::Field { cursor }
        } else {
            Collector::Scan {
                at: cursor.at + HEAD + fields,
            }
        }
    }

    fn open_place(&mut self, at: u32)
        requires { Openable (view self.old) at }
        ensures { view self.new ≡ opened (view self.old) at }
    {
        let from = self.word(at) - 1;
        let number = self.word(from);
        self.put(at, number);
        self.collector = self.fields_from(Cursor { at, from, field: 0 });
    }

    /// The word of the cursor's field in the old copy.
    fn met(&self, cursor: Cursor) -> u32
        requires { Writable (view self.now) cursor.from cursor.field }
        ensures { result ≡ word_at (view self.now) (cursor.from + 2 + cursor.field) }
    {
        self.word(cursor.from + HEAD + cursor.field)
    }

    fn write_field(&mut self, cursor: Cursor, word: u32)
        requires { Writable (view self.old) cursor.at cursor.field }
        ensures { view self.new ≡ written (view self.old) cursor word }
    {
        self.put(cursor.at + HEAD + cursor.field, word);
        self.collector = self.fields_from(cursor.next());
    }

    fn copy_field(&mut self, cursor: Cursor)
        requires { Copyable (view self.old) cursor }
        ensures { view self.new ≡ copied_field (view self.old) cursor }
    {
        let met = self.met(cursor);
        self.write_field(cursor, met);
    }

    fn finish(&mut self)
        ensures { view self.new ≡ finished (view self.old) }
    {
        self.spare = self.halves.high - self.halves.low;
        self.collector = Collector::Rest;
    }

    fn resting(&self) -> bool
        ensures { result ≡ Resting (view self.now).collector }
    {
        matches!(self.collector, Collector::Rest)
    }

    /// The transition that fits.
    // Kept: the collector's state, matched in place with the field met, chooses the transition; that is a rule of the project.
    fn fitting(&self) -> Transition
        requires { Watched (view self.now) (view self.now).collector }
        ensures { result ≡ transition (view self.now) }
    {
        match self.collector {
            Collector::Rest => Transition::Start,
            Collector::Slots { next } => Transition::Slot { next },
            Collector::Scan { at } => {
                if at < self.halves.base + self.halves.low {
                    Transition::Open { at }
                } else {
                    Transition::Done
                }
            }
            Collector::Field { cursor } => self.fitting_field(cursor),
        }
    }

    fn fitting_field(&self, cursor: Cursor) -> Transition
        requires { Watched (view self.now) (Collector.Field cursor) }
        ensures { result ≡ FittingField (view self.now) cursor }
    {
        if !self.book.refers(self.kind_at(cursor.from), cursor.field) {
            return Transition::Word { cursor };
        }
        match self.target(self.met(cursor)) {
            Target::Settled => Transition::Keep { cursor },
            Target::Placed { place } => Transition::Forward { cursor, place },
            Target::Unplaced => Transition::Reserve { cursor },
        }
    }

    /// Makes one step; says whether it ended a cycle.
    // Kept: a match on the eight transitions runs the one that was chosen; that is a rule of the project.
    pub fn step(&mut self) -> bool
        requires { Ready (view self.old) }
        ensures after { view self.new ≡ stepped (view self.old) }
        ensures ended { result ≡ Resting (view self.new).collector }
    {
        match self.fitting() {
            Transition::Start => self.start(),
            Transition::Slot { next } => self.pass_slot(next),
            Transition::Open { at } => self.open_place(at),
            Transition::Word { cursor } => self.copy_field(cursor),
            Transition::Keep { cursor } => self.copy_field(cursor),
            Transition::Forward { cursor, place } => self.write_field(cursor, place),
            Transition::Reserve { cursor } => self.reserve_field(cursor),
            Transition::Done => self.finish(),
        }
        self.resting()
    }

    fn reserve_field(&mut self, cursor: Cursor)
        requires copyable { Copyable (view self.old) cursor }
        requires some { 0 < word_at (view self.old) (cursor.from + 2 + cursor.field) }
        requires room { Room (view self.old) (word_at (view self.old) (cursor.from + 2 + cursor.field) - 1) }
        ensures { view self.new ≡ reserved_field (view self.old) cursor }
    {
        let met = self.met(cursor);
        let place = self.reserve(met - 1);
        self.write_field(cursor, place);
    }
}
