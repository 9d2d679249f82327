//! The copying heap.

ghost use Rattle.semispace.specs.View.{view};
ghost use Rattle.semispace.specs.Graphs.{Whole};

use semispace::store::Store;

pub mod idling;
pub mod opening;
mod space;

/// A heap in two halves of lent words, and its collector. Its calls are those of `Heap`, which it has as a `Space`.
#[derive(Drop)]
pub struct Copying<'m> {
    store: Store<'m>,
    ghost whole: { ∥ Whole (view store) ∥₁ },
}
