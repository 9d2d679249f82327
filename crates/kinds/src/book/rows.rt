//! The rows of a book's kinds.

ghost use Rattle.kinds.specs.Items.{items};
ghost use Rattle.kinds.specs.Rows.{LawfulRows};

use super::MAX_KINDS;
use crate::fixed_list::FixedList;
use crate::kind::Kind;
use crate::row::Row;

/// At most sixteen rows. Each is a kind's.
#[derive(Clone, Copy)]
pub(super) struct Rows {
    list: FixedList<Row, MAX_KINDS>,
    ghost sound: { LawfulRows (items list) },
}

impl Rows {
    ghost use Rattle.std.specs.Prelude.{◌≡◌, ◌<◌, ◌≤◌, [], ◌∷◌, ◌++◌, length, nat_le, ◌↔◌, IsSome, IfSome, Some, slice_index_or};
    ghost use Rattle.kinds.specs.Shapes.{no_shape};
    ghost use Rattle.kinds.specs.Kinds.{shape_of, row_kind};
    ghost use Rattle.kinds.specs.Books.{listed};

    /// No rows.
    pub(super) fn new() -> Rows
        ensures { listed result ≡ [] }
    {
        Rows {
            list: FixedList::new(Row::new(0)),
        }
    }

    /// How many rows there are.
    pub(super) fn len(&self) -> u32
        ensures count { result ≡ length (listed self.now) }
        ensures few { result ≤ 16 }
    {
        self.list.len() as u32
    }

    /// Has each place a row?
    pub(super) fn is_full(&self) -> bool
        ensures { result ≡ nat_le 16 (length (listed self.now)) }
    {
        self.list.is_full()
    }

    /// The row in place `k`, if there is one.
    pub(super) fn get(&self, k: u32) -> Option<Row>
        ensures there { IsSome result ↔ (k < length (listed self.now)) }
        ensures kind { IfSome result (λ row. row_kind row ≡ Some (slice_index_or (listed self.now) k no_shape)) }
    {
        self.list.as_slice().get(k as usize).copied()
    }

    /// Puts the row of a kind after the others.
    pub(super) fn push(&mut self, kind: Kind)
        requires { length (listed self.old) < 16 }
        ensures { listed self.new ≡ listed self.old ++ (shape_of kind ∷ []) }
    {
        self.list.push(Row::from(kind));
    }
}
