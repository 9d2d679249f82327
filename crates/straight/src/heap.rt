//! The straight heap.

ghost use Rattle.straight.specs.Stored.{state};
ghost use Rattle.straight.specs.Whole.{Whole};

use crate::store::Store;

pub mod laws;
pub mod opening;
mod space;

/// A heap over lent words. It never frees, and is not collected. Its calls are those of `Heap`, which it has as a `Space`.
#[derive(Drop)]
pub struct Straight<'m> {
    store: Store<'m>,
    ghost whole: { ∥ Whole (state store) ∥₁ },
}
