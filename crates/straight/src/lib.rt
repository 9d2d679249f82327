//! The straight heap: records one after another in lent words, never freed.

#![tactic(auto)]

pub mod heap;
mod store;
