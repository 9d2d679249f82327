//! How far the record that is being moved has come.

ghost use Rattle.std.specs.Prelude.{◌≡◌, ◌+◌, ◌^◌, ◌<◌};
ghost use Rattle.semispace.specs.Words.{next_field};

/// The open record, and the next of its fields. The fields before that are in the new copy already.
#[derive(Clone, Copy, Debug, PartialEq, Eq)]
pub struct Cursor {
    /// The address of the record's new copy.
    pub at: u32,
    /// The address of its old copy.
    pub from: u32,
    /// The field that is moved next.
    pub field: u32,
}

impl Cursor {
    /// The same record, one field on.
    pub(crate) fn next(&self) -> Cursor
        requires { self.now.field + 1 < 2 ^ 32 }
        ensures { result ≡ next_field self.now }
    {
        Cursor {
            field: self.field + 1,
            ..*self
        }
    }
}
