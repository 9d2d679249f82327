//! A short list in fixed memory.

ghost use Rattle.std.specs.Prelude.{◌≤◌};

use std::alloc::AllocError;

/// At most `N` items, in the first places. A place past them is not used.
// Kept: an array and its count, since rows and sealed books lie in fixed memory and are copied, and an ArrayVec is not Copy.
pub(crate) struct FixedList<T, const N: usize> {
    pub(crate) places: [T; N],
    pub(crate) count: usize,
    ghost few: { count ≤ N },
}

// Kept: `Clone` by hand, since it is not derived for a generic struct with a ghost field.
impl<T: Copy, const N: usize> Clone for FixedList<T, N> {
    ghost use Rattle.std.specs.Prelude.{◌≡◌, ⊤};

    ghost is_clone = { λ x y. y ≡ x };

    ghost is_infallible = { λ _. ⊤ };

    fn clone(&self) -> Result<FixedList<T, N>, AllocError> {
        Ok(*self)
    }
}

impl<T: Copy, const N: usize> Copy for FixedList<T, N> {}

impl<T: Copy, const N: usize> FixedList<T, N> {
    ghost use Rattle.std.specs.Prelude.{◌≡◌, ◌<◌, [], ◌∷◌, ◌++◌, length, nat_le};
    ghost use Rattle.kinds.specs.Items.{items};

    /// No items. The filler lies in the places that are not used.
    pub(crate) fn new(filler: T) -> FixedList<T, N>
        ensures { items result ≡ [] }
    {
        FixedList {
            places: [filler; N],
            count: 0,
        }
    }

    pub(crate) fn len(&self) -> usize
        ensures len { result ≡ length (items self.now) }
        ensures count { result ≡ self.now.count }
        ensures few { result ≤ N }
    {
        self.count
    }

    /// Has each place an item?
    pub(crate) fn is_full(&self) -> bool
        ensures { result ≡ nat_le N (length (items self.now)) }
    {
        self.count >= N
    }

    /// The items in their order.
    pub(crate) fn as_slice(&self) -> &[T]
        ensures { result.now ≡ items self.now }
    {
        &self.places[..self.count]
    }

    /// Adds an item after the others.
    pub(crate) fn push(&mut self, item: T)
        requires { length (items self.old) < N }
        ensures { items self.new ≡ items self.old ++ (item ∷ []) }
    {
        self.places[self.count] = item;
        self.count += 1;
    }
}
