//! The graph of linked records, what a heap means, and the calls of a heap, written and proved once over any space of records.

#![tactic(auto)]

pub mod actions;
mod calls;
pub mod collected;
pub mod counting;
pub mod heap;
pub mod layout;
mod opening;
pub mod record_space;
mod refusals;
pub mod slots;
pub mod space;
pub mod words;

ghost use Rattle.graph.specs.Laws.{Laws, Examples};

/// The laws of the graph: the promise is the theorem, there is nothing to run.
pub fn graph_laws_hold()
    ensures laws { Laws }
    ensures examples { Examples }
{}
