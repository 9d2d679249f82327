//! An empty row, and a row from a slice of numbers: the number of fields, then pairs of offset and length.

ghost use Rattle.std.specs.Prelude.{◌≡◌, []};
ghost use Rattle.kinds.specs.Read.{row_read, taken};
ghost use Rattle.kinds.specs.Rows.{row_runs};

use super::Row;
use crate::fixed_list::FixedList;
use crate::run::Run;

impl Row {
    /// A row with so many fields and no run.
    pub(crate) fn new(fields: u32) -> Row
        ensures fields { result.fields ≡ fields }
        ensures runs { row_runs result ≡ [] }
    {
        Row {
            fields,
            runs: FixedList::new(Run::default()),
        }
    }

    /// The row that the numbers write. None for an empty slice, for a lone last number, and for a fifth pair; the other rules are not tested.
    // Kept: the numbers are matched as a slice, the first and the rest and then pair by pair; that is a rule of the project.
    pub(crate) fn read(numbers: &[u32]) -> Option<Row>
        ensures { row_read result ≡ taken numbers.now }
    {
        let [fields, rest @ ..] = numbers else {
            return None;
        };
        let mut row = Row::new(*fields);
        let mut rest = rest;
        while let [offset, length, tail @ ..] = rest {
            if row.runs.is_full() {
                return None;
            }
            row.runs.push(Run::new(*offset, *length));
            rest = tail;
        }
        if rest.is_empty() { Some(row) } else { None }
    }
}
