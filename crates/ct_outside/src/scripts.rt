// A source of scripts, by what it was asked and what it tells of itself.

ghost use Rattle.std.specs.Prelude.{◌≡◌, ◌≤◌, ◌∷◌, [], ℕ, List, Option, IfOk, IsErrOf, vec_len};
ghost use Rattle.ct_outside.specs.Outside.{Rose, Held, StillHolds, Holds, HoldsWithin, HoldsMore, Added, AddedFront};
ghost use Rattle.ct_outside.specs.Reads.{UnlessMemory, UnlessFailed};
ghost use Rattle.ct_outside.specs.declared.scripts.ReadError.TheVariants as fault;

use ct_word::Memory;
use std::alloc::{AllocError, AllocFailed, Global};
use thiserror::Error;

/// Why a script was not read.
#[derive(Clone, Copy, Debug, PartialEq, Eq, Error)]
pub enum ReadError {
    /// The source failed, and counted it.
    #[error("read fault")]
    Failed,
    /// The source holds more bytes than the limit.
    #[error("script too long")]
    TooLong,
    /// Memory was wanting.
    #[error("out of memory")]
    Memory,
}

impl From<AllocError> for ReadError {
    ghost from_gives = { λ _ e. e ≡ fault.Memory };

    fn from(_: AllocError) -> Self {
        ReadError::Memory
    }
}

impl<T: Drop> From<AllocFailed<T>> for ReadError {
    ghost from_gives = { λ _ e. e ≡ fault.Memory };

    fn from(_: AllocFailed<T>) -> Self {
        ReadError::Memory
    }
}

impl From<Memory> for ReadError {
    ghost from_gives = { λ _ e. e ≡ fault.Memory };

    fn from(_: Memory) -> Self {
        ReadError::Memory
    }
}

/// A source of scripts under names.
pub trait Scripts {
    /// How often it failed: a number that rises where a read fails alone, and ends at the greatest `u64`.
    ghost faults: { Self → ℕ };

    /// The bytes under each name, where it tells them.
    ghost held: { Self → Option Held };

    /// The names that it was asked so far, where it tells them.
    ghost names: { Self → Option (List (List ℕ)) };

    /// All bytes held under the name, where there are at most `limit`.
    ///
    /// # Errors
    /// `Failed` only where the count of faults rose; `TooLong` where the call did not fail and more than `limit`
    /// bytes are held; `Memory` for want of memory, and then the name may not be among those asked.
    fn read(&mut self, alloc: Global, name: &str, limit: u32) -> Result<Vec<u8>, ReadError>
        ensures later { faults self.old ≤ faults self.new }
        ensures failed { IsErrOf result fault.Failed → Rose (faults self.old) (faults self.new) }
        ensures quiet { UnlessFailed result (faults self.new ≡ faults self.old) }
        ensures held { StillHolds (held self.old) (held self.new) }
        ensures bytes { IfOk result (λ text. Holds (held self.old) name.now text.items) }
        ensures within { IfOk result (λ text. HoldsWithin (held self.old) name.now limit) }
        ensures too_long { IsErrOf result fault.TooLong → HoldsMore (held self.old) name.now limit }
        ensures names { AddedFront (names self.old) (names self.new) (name.now ∷ []) }
        ensures asked { UnlessMemory result (Added (names self.old) (names self.new) (name.now ∷ [])) };
}
