//! A kind of record: numbers that keep the rules.

ghost use Rattle.std.specs.Prelude.{◌≡◌, ◌≤◌, true};
ghost use Rattle.kinds.specs.Shapes.{lawful};
ghost use Rattle.kinds.specs.Numbered.{shape_from};

pub mod making;
pub mod questions;

/// A kind: its number of fields, its number of runs of reference fields, and the runs in their order.
/// The runs are sorted, apart and inside the fields: no other kind can exist.
// Kept: a kind is a struct of single numbers whose invariant says the rules; that is a rule of the project.
#[derive(Clone, Copy)]
pub struct Kind {
    fields: u32,
    runs: u32,
    offset_0: u32,
    length_0: u32,
    offset_1: u32,
    length_1: u32,
    offset_2: u32,
    length_2: u32,
    offset_3: u32,
    length_3: u32,
    ghost few: { runs ≤ 4 },
    ghost rules: { lawful (shape_from fields runs offset_0 length_0 offset_1 length_1 offset_2 length_2 offset_3 length_3) ≡ true },
}
