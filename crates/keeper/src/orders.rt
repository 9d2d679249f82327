//! Calls of a keeper as values, and what they came to.

use kinds::refusal::Refusal;

/// A call, with its arguments in their order. A settle names one of the bills held by its place among them.
#[derive(Clone, Copy, PartialEq, Eq, Debug)]
pub enum Order {
    Make(u32, u32),
    Read(u32, u32),
    Write(u32, u32, u32),
    Follow(u32, u32, u32),
    Link(u32, u32, u32),
    Hold(u32, u32),
    Drop(u32),
    Look(u32),
    Spare,
    Idle(u64),
    Settle(usize),
}

/// What an order came to.
// Kept: one enum and no Result, since it is public and a program may match it; a refused settle and an order that is no
// call are no Refusal.
#[derive(Clone, Copy, PartialEq, Eq, Debug)]
pub enum Reply {
    /// The call was made.
    Done,
    /// It answered a number: a make's, a read's word, the spare.
    Word(u32),
    /// A record's number and kind.
    Known(u32, u32),
    /// It was refused.
    Refused(Refusal),
    /// An idle's steps, and whether a cycle ended.
    Idled(u64, bool),
    /// A settle's steps.
    Settled(u64),
    /// A settle was refused with 9, and its bill handed back.
    NotSettled,
    /// The order named no bill: it was no call.
    NoCall,
}
