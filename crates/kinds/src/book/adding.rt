//! An empty book, and kinds added to it.

ghost use Rattle.std.specs.Prelude.{◌≡◌, true, [], is_err};
ghost use Rattle.kinds.specs.Written.{written};
ghost use Rattle.kinds.specs.Said.{said};
ghost use Rattle.kinds.specs.Kinds.{accepted};
ghost use Rattle.kinds.specs.Books.{book_list, numbered, extended};

use super::Book;
use super::rows::Rows;
use crate::kind::Kind;
use crate::refusal::Refusal;

impl Book {
    /// A book with no kind.
    pub fn new() -> Book
        ensures { book_list result ≡ [] }
    {
        Book { rows: Rows::new() }
    }

    /// Adds the kind that the numbers write, and says its number.
    pub fn add(&mut self, numbers: &[u32]) -> Result<u32, Refusal>
        ensures answer { said (λ n. n) result ≡ numbered (book_list self.old) (accepted (written numbers.now)) }
        ensures list { book_list self.new ≡ extended (book_list self.old) (accepted (written numbers.now)) }
        ensures kept { is_err result ≡ true → self.new ≡ self.old }
    {
        let kind = Kind::try_from(numbers)?;
        if self.rows.is_full() {
            return Err(Refusal::BadKind);
        }
        let number = self.rows.len();
        self.rows.push(kind);
        Ok(number)
    }
}
