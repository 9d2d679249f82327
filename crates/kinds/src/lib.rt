//! Kinds of records, the book that numbers them, and the numbers of refused calls.

#![tactic(auto)]

pub mod book;
mod fixed_list;
pub mod kind;
pub mod laws;
pub mod numbers;
pub mod refusal;
pub mod row;
mod run;
#[cfg(test)]
mod tests;
