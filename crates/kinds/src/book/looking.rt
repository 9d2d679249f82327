//! The kinds of a sealed book.

ghost use Rattle.std.specs.Prelude.{◌≡◌, ◌≤◌, length, get_or};
ghost use Rattle.kinds.specs.Shapes.{no_shape, within};
ghost use Rattle.kinds.specs.Said.{said};
ghost use Rattle.kinds.specs.Kinds.{shape_of};
ghost use Rattle.kinds.specs.Books.{kinds_of, looked_up};

use super::SealedBook;
use crate::kind::Kind;
use crate::refusal::Refusal;

impl SealedBook {
    /// How many kinds the book has.
    pub fn kinds(&self) -> u32
        ensures count { result ≡ length (kinds_of self.now) }
        ensures few { result ≤ 16 }
    {
        self.rows.len()
    }

    /// The kind of number `k`, from its row, after a check of that.
    pub fn kind(&self, k: u32) -> Result<Kind, Refusal>
        ensures { said shape_of result ≡ looked_up (kinds_of self.now) k }
    {
        let row = self.rows.get(k).ok_or(Refusal::NoKind)?;
        Kind::try_from(row)
    }

    /// How many fields the records of kind `k` have, at most 62; 0 where the book has no such kind.
    // Kept: 0 and no Option, as the public promise says; `kind` is the form with a refusal.
    pub fn fields(&self, k: u32) -> u32
        ensures fields { result ≡ (get_or (kinds_of self.now) k no_shape).fields }
        ensures few { result ≤ 62 }
    {
        self.kind(k).map_or(0, |kind| kind.fields())
    }

    /// Is a field of kind `k` a reference? None is where the book has no such kind.
    pub fn refers(&self, k: u32, field: u32) -> bool
        ensures { result ≡ within (get_or (kinds_of self.now) k no_shape).runs field }
    {
        self.kind(k).is_ok_and(|kind| kind.refers(field))
    }
}
