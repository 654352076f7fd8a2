//! The words of a table that no thread shares any more.
ghost use Rattle.std.specs.Prelude.{◌≡◌};
ghost use Rattle.std.specs.Slots.{slots_len, IsFull};

use crate::words::rule::Note;
use atomic_table::Closed;
use std::alloc::Global;

/// The words as they were last.
pub struct Words {
    closed: Closed<Note, Global>,
    ghost full: { IsFull closed.words },
    ghost bare: { slots_len closed.slots ≡ 0 },
}

impl Words {
    ghost use Rattle.std.specs.Prelude.{ℕ, ◌+◌, ◌<◌, length};
    ghost use Rattle.std.specs.Slots.{slots_items};
    ghost use Rattle.optimistic.specs.words.Last.{words_in, node_in};

    /// The words of a closed table, which has no slots.
    pub(crate) fn of(closed: Closed<Note, Global>) -> Words
        requires full { IsFull closed.words }
        requires bare { slots_len closed.slots ≡ 0 }
        ensures { words_in result ≡ slots_items closed.words }
    {
        Words { closed }
    }

    /// How many there are.
    pub fn len(&self) -> usize
        ensures { result ≡ length (words_in self.now) }
    {
        self.closed.words.len()
    }

    /// Word `word` of a node.
    #[inline(always)]
    pub fn word(&self, node: usize, word: usize) -> u64
        requires { node + word < length (words_in self.now) }
        ensures { result ≡ node_in self.now node word }
    {
        self.closed.word(node + word)
    }
}

impl Drop for Words {
    fn drop(self) {
        let Words { closed } = self;
        closed.free();
    }
}
