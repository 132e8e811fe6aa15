// What the operators refuse.

ghost use Rattle.std.specs.Prelude.{◌≡◌};
ghost use Rattle.ct_operators.specs.declared.error.TableError.TheVariants as fault;

use ct_arena::Full;
use ct_word::Memory;
use std::alloc::{AllocError, AllocFailed};
use thiserror::Error;

/// Why an operator made no table.
#[derive(Clone, Copy, Debug, PartialEq, Eq, Error)]
pub enum TableError {
    /// The log has as many words as its capacity.
    #[error("the log is full")]
    Full,
    /// Memory was wanting.
    #[error("out of memory")]
    Memory,
}

impl From<Full> for TableError {
    ghost from_gives = { λ _ e. e ≡ fault.Full };

    fn from(_: Full) -> Self {
        TableError::Full
    }
}

impl From<Memory> for TableError {
    ghost from_gives = { λ _ e. e ≡ fault.Memory };

    fn from(_: Memory) -> Self {
        TableError::Memory
    }
}

impl From<AllocError> for TableError {
    ghost from_gives = { λ _ e. e ≡ fault.Memory };

    fn from(_: AllocError) -> Self {
        TableError::Memory
    }
}

impl<T: Drop> From<AllocFailed<T>> for TableError {
    ghost from_gives = { λ _ e. e ≡ fault.Memory };

    fn from(_: AllocFailed<T>) -> Self {
        TableError::Memory
    }
}
