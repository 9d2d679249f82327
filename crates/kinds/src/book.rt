//! The book of kinds: open to more kinds, and sealed.

use rows::Rows;

pub mod adding;
pub mod looking;
mod rows;
pub mod sealing;

/// The most kinds that a book has.
pub const MAX_KINDS: usize = 16;

/// A book that takes kinds. They are numbered by their places.
#[derive(Drop)]
pub struct Book {
    rows: Rows,
}

/// A book that takes no more kinds.
#[derive(Clone, Copy)]
pub struct SealedBook {
    rows: Rows,
}
