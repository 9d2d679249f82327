//! What a row says of its fields.

ghost use Rattle.std.specs.Prelude.{◌≡◌};
ghost use Rattle.kinds.specs.Rows.{row_runs};
ghost use Rattle.kinds.specs.Shapes.{within};

use super::Row;

impl Row {
    /// Does the field lie in one of the runs?
    pub(crate) fn refers(&self, field: u32) -> bool
        ensures { result ≡ within (row_runs self.now) field }
    {
        self.runs.as_slice().iter().any(|run| run.contains(field))
    }
}
