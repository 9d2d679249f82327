//! Tests of the heaps and the keeper, in a crate of their own: a crate with tests is proved twice.

#![tactic(auto)]

#[cfg(test)]
mod books;
#[cfg(test)]
mod copying_heap;
pub mod hollow;
#[cfg(test)]
mod keeping;
#[cfg(test)]
mod readme;
#[cfg(test)]
mod straight_heap;
