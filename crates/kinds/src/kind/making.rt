//! Kinds from rows and from numbers, after a check, and their rows.

ghost use Rattle.std.specs.Prelude.{◌≡◌};
ghost use Rattle.kinds.specs.Written.{written};
ghost use Rattle.kinds.specs.Said.{said};
ghost use Rattle.kinds.specs.Kinds.{shape_of, accepted, kind_row, row_kind};

use super::Kind;
use crate::fixed_list::FixedList;
use crate::refusal::Refusal;
use crate::row::Row;
use crate::run::Run;

/// The kind of a row that keeps the rules.
impl TryFrom<Row> for Kind {
    type Error = Refusal;

    ghost try_from_gives = { λ row result. said shape_of result ≡ accepted (row_kind row) };

    fn try_from(row: Row) -> Result<Kind, Refusal> {
        if row.lawful() {
            let [run_0, run_1, run_2, run_3] = row.runs.places;
            Ok(Kind {
                fields: row.fields,
                runs: row.runs.len() as u32,
                offset_0: run_0.offset,
                length_0: run_0.length,
                offset_1: run_1.offset,
                length_1: run_1.length,
                offset_2: run_2.offset,
                length_2: run_2.length,
                offset_3: run_3.offset,
                length_3: run_3.length,
            })
        } else {
            Err(Refusal::BadKind)
        }
    }
}

/// The row of the kind.
impl From<Kind> for Row {
    ghost from_gives = { λ kind row. row ≡ kind_row kind };

    fn from(kind: Kind) -> Row {
        Row {
            fields: kind.fields,
            runs: FixedList {
                places: [
                    Run::new(kind.offset_0, kind.length_0),
                    Run::new(kind.offset_1, kind.length_1),
                    Run::new(kind.offset_2, kind.length_2),
                    Run::new(kind.offset_3, kind.length_3),
                ],
                count: kind.runs as usize,
            },
        }
    }
}

/// The kind that the numbers write: the number of fields, then pairs of offset and length.
impl TryFrom<&[u32]> for Kind {
    type Error = Refusal;

    ghost try_from_gives = { λ numbers result. said shape_of result ≡ accepted (written numbers.now) };

    fn try_from(numbers: &[u32]) -> Result<Kind, Refusal> {
        let row = Row::read(numbers).ok_or(Refusal::BadKind)?;
        Kind::try_from(row)
    }
}
