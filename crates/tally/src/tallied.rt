//! A heap that counts.

pub mod calls;
pub mod questions;

use crate::counts::Counts;

/// Holds the heap below, and counts accepted makes, refused calls, steps and the highest words in use.
#[derive(Drop)]
pub struct Tally<H> {
    heap: H,
    counts: Counts,
}
