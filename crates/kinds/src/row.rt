//! What a book keeps of one kind.

use crate::fixed_list::FixedList;
use crate::run::Run;

pub mod questions;
pub mod reading;
pub mod rules;

/// The most fields that a kind has.
pub const MAX_FIELDS: u32 = 62;

/// The most runs of reference fields that a kind has.
pub const MAX_RUNS: usize = 4;

/// The runs in their order, and the number of fields.
// The runs stand first: with the single number before them a row is copied in pieces that cross its words, and that is slow.
#[derive(Clone, Copy)]
pub struct Row {
    pub(crate) runs: FixedList<Run, MAX_RUNS>,
    pub(crate) fields: u32,
}
