// The log before it has a name, and the log that a site names.

ghost use Rattle.std.specs.Prelude.{◌≡◌, [], ◌≤◌, ◌<◌, IfOk, None};
ghost use Rattle.ct_arena.specs.Counts.{opening};

use crate::keepers::KeeperPass;
use crate::sharing::{Token, Words, begin_words, table};
use crate::sites::Site;
use ct_word::Memory;
use std::alloc::Global;
use std::marker::{Model, PhantomData};

/// A log that has no name yet. Contracts see it as the name that it is to have.
#[derive(Drop)]
pub struct Blank {
    cap: u32,
    words: Words,
    token: Token,
    seen: Vec<u64>,
}

impl Model for Blank {
    ghost use Rattle.std.specs.Prelude.{◌≡◌, ℕ, [], ◌≤◌, ◌<◌, vec_capacity};
    ghost use Rattle.ct_arena.specs.Name.{LogName, log_name_coded};
    ghost use Rattle.ct_arena.specs.Counts.{opening};
    ghost use Rattle.ct_arena.specs.Sharing.{first_view};

    ghost Value = { LogName };

    ghost coded = { log_name_coded };

    ghost view = { λ b. record { cap = b.cap; table = b.words.shared.table_id } };

    ghost invariant = { λ b. (b.token.table_id ≡ b.words.shared.table_id) × (b.token.me ≡ (first_view b.cap, [])) × (b.words.shared.table_id.words ≡ b.words.shared.key) × (b.cap ≡ b.words.shared.key) × (b.seen.items ≡ opening) × (b.cap ≤ vec_capacity b.seen) × (64 ≤ b.cap) × (b.cap ≤ 4194304) };
}

impl Blank {
    /// Makes a log with room for `cap` words, of which the first two are `true` and `false`.
    ///
    /// # Errors
    /// `Memory` where there is none for the log or for the keeper's list of it.
    pub fn make(alloc: Global, cap: u32) -> Result<Blank, Memory>
        requires least { 64 ≤ cap }
        requires most { cap ≤ 4194304 }
        ensures { IfOk result (λ blank. blank.cap ≡ cap) }
    {
        let seen = begin_words(alloc, cap as usize)?;
        let (words, token) = table(alloc, cap)?;
        Ok(Blank {
            cap,
            words,
            token,
            seen,
        })
    }
}

/// The log that N names.
#[derive(Drop)]
pub struct Arena<N: Site> {
    pub(crate) cap: u32,
    pub(crate) words: Words,
    site: PhantomData<N>,
    ghost table: { words.shared.table_id ≡ N.log.table },
    ghost count: { words.shared.table_id.words ≡ words.shared.key },
    ghost key: { cap ≡ words.shared.key },
    ghost room: { cap ≡ N.log.cap },
    ghost least: { 64 ≤ N.log.cap },
    ghost most: { N.log.cap ≤ 4194304 },
}

impl<N: Site> Arena<N> {
    /// Gives a log its name. It takes no memory and leaves the words as they are.
    pub fn make(blank: Blank) -> (Arena<N>, KeeperPass<N>)
        requires { blank ≡ N.log }
        ensures { result.1 ≡ record { words = opening; enrolled = 0; guest = None; ended = [] } }
    {
        let Blank {
            cap,
            words,
            token,
            seen,
        } = blank;
        let arena = Arena {
            cap,
            words,
            site: PhantomData,
        };
        (arena, KeeperPass::from_parts(token, seen))
    }
}
