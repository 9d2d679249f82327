//! Single words.

ghost use Rattle.std.specs.Prelude.{◌≡◌, ◌+◌, ◌<◌, ◌≤◌, length, slice_set};
ghost use Rattle.graph.specs.Clearing.{cleared};
ghost use Rattle.straight.specs.Stored.{state};
ghost use Rattle.straight.specs.Words.{with_memory, word_at};

use super::Store;

// Kept: as the copying heap's store has them; each is one line and promises words of its own state.
impl<'m> Store<'m> {
    /// The word at an address.
    pub(crate) fn word(&self, at: u32) -> u32
        requires { at < length (state self.now).memory }
        ensures { result ≡ word_at (state self.now) at }
    {
        self.memory[at as usize]
    }

    /// Sets the word at an address.
    pub(crate) fn put(&mut self, at: u32, word: u32)
        requires { at < length (state self.old).memory }
        ensures { state self.new ≡ with_memory (state self.old) (slice_set (state self.old).memory at word) }
    {
        self.memory[at as usize] = word;
    }
}
