//! Pacings: how many steps of the collector a made word is worth.

#![tactic(auto)]

pub mod by_mark;
pub mod by_word;
pub mod pace;
pub mod rate;
