//! The keeper: what a box's tasks call. It makes the collector keep up with what is made.

#![tactic(auto)]

pub mod keeper;
pub mod laws;
pub mod orders;
pub mod play;
pub mod together;
