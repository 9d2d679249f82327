//! The tally: counts what passes through it to the heap below.

#![tactic(auto)]

mod counts;
pub mod tallied;
