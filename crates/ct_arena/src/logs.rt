// The whole log, once nobody appends any more.

ghost use Rattle.std.specs.Prelude.{◌≡◌, []};

use ct_word::List;
use std::alloc::Global;
use std::marker::Model;

/// A whole log, which contracts see as the list of its words. One with words comes from `KeeperPass::finish` alone.
#[derive(Drop)]
pub struct Log {
    words: List<u64>,
}

impl Model for Log {
    ghost use Rattle.std.specs.Prelude.{List, ℕ};

    ghost Value = { List ℕ };

    ghost view = { λ a. a.words };
}

impl Log {
    pub(crate) fn from_parts(words: Vec<u64>) -> Log
        ensures { result ≡ words.items }
    {
        Log {
            words: List::from_vec(words),
        }
    }

    /// The log without words. It takes no memory.
    pub fn empty(alloc: Global) -> Log
        ensures { result ≡ [] }
    {
        Log {
            words: List::new(alloc),
        }
    }

    pub fn words(&self) -> &[u64]
        ensures { result.now ≡ self.now }
    {
        self.words.as_slice()
    }

    /// The words. It takes no memory.
    pub fn into_words(self) -> List<u64>
        ensures { result ≡ self }
    {
        let Log { words } = self;
        words
    }
}
