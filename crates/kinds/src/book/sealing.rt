//! A book is sealed.

ghost use Rattle.std.specs.Prelude.{◌≡◌};
ghost use Rattle.kinds.specs.Books.{book_list, kinds_of};

use super::{Book, SealedBook};

impl Book {
    /// The book with the same kinds, which takes no more.
    pub fn seal(self) -> SealedBook
        ensures { kinds_of result ≡ book_list self }
    {
        let Book { rows } = self;
        SealedBook { rows }
    }
}
