//! Why a call was refused.

use thiserror::Error;

/// Why a call was refused. The number of each case is the one that `number` returns.
#[derive(Clone, Copy, PartialEq, Eq, Debug, Error)]
pub enum Refusal {
    /// A slot number is not below the number of slots.
    #[error("the slot number is not below the number of slots")]
    NoSlot = 1,
    /// The kind is not in the book.
    #[error("the kind is not in the book")]
    NoKind = 2,
    /// The slot is empty and its record is needed.
    #[error("the slot is empty and its record is needed")]
    EmptySlot = 3,
    /// The field is not below the kind's fields.
    #[error("the field is not below the kind's fields")]
    NoField = 4,
    /// A word call meets a reference field, or the reverse.
    #[error("a word call meets a reference field, or the reverse")]
    WrongSort = 5,
    /// The charge is above the spare.
    #[error("the charge is above the spare")]
    NoSpace = 6,
    /// The last number, 4,294,967,295, has been given.
    #[error("the last number has been given")]
    NumbersSpent = 7,
    /// A keeper's make while a bill is open.
    #[error("a bill is open")]
    BillOpen = 8,
    /// A settle with a bill that is not the open one, or with none open.
    #[error("the bill is not the open one")]
    WrongBill = 9,
    /// The opening was bad.
    #[error("the opening was bad")]
    BadOpening = 10,
    /// The kind breaks a rule, or the book is full.
    #[error("the kind breaks a rule, or the book is full")]
    BadKind = 11,
}
