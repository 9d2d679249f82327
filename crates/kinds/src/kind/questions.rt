//! What a kind says of its fields.

ghost use Rattle.std.specs.Prelude.{◌≡◌, ◌≤◌};
ghost use Rattle.kinds.specs.Shapes.{within};
ghost use Rattle.kinds.specs.Kinds.{shape_of};

use super::Kind;
use crate::row::Row;

impl Kind {
    /// The number of fields, at most 62.
    pub fn fields(&self) -> u32
        ensures fields { result ≡ (shape_of self.now).fields }
        ensures few { result ≤ 62 }
    {
        self.fields
    }

    /// Is the field a reference field?
    pub fn refers(&self, field: u32) -> bool
        ensures { result ≡ within (shape_of self.now).runs field }
    {
        Row::from(*self).refers(field)
    }
}
