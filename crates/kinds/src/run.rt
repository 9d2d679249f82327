//! A run of reference fields.

ghost use Rattle.std.specs.Prelude.{◌≡◌, ◌+◌, ◌^◌, ◌<◌, ◌&&◌, nat_le, nat_lt};

/// A run of reference fields: the field where it begins, and how many fields it has.
#[derive(Clone, Copy, Debug, Default, PartialEq, Eq)]
pub(crate) struct Run {
    pub(crate) offset: u32,
    pub(crate) length: u32,
}

impl Run {
    ghost use Rattle.kinds.specs.Runs.{run_of};

    pub(crate) fn new(offset: u32, length: u32) -> Run
        ensures { result ≡ run_of offset length }
    {
        Run { offset, length }
    }

    /// The field after the last one.
    pub(crate) fn end(&self) -> u32
        requires { self.now.offset + self.now.length < 2 ^ 32 }
        ensures { result ≡ self.now.offset + self.now.length }
    {
        self.offset + self.length
    }

    /// Does the field lie in the run?
    pub(crate) fn contains(&self, field: u32) -> bool
        ensures { result ≡ (nat_le self.now.offset field && nat_lt field (self.now.offset + self.now.length)) }
    {
        self.offset <= field && field - self.offset < self.length
    }

    /// Does the run begin at `low` or later, have a field, and end inside the fields?
    pub(crate) fn fits(&self, low: u32, fields: u32) -> bool
        ensures { result ≡ (nat_le low self.now.offset && (nat_le 1 self.now.length && nat_le (self.now.offset + self.now.length) fields)) }
    {
        low <= self.offset
            && 1 <= self.length
            && self.offset <= fields
            && self.length <= fields - self.offset
    }
}
