// Why there is no list.

ghost use Rattle.std.specs.Prelude.{◌≡◌, ℕ};
ghost use Rattle.ct_decide.specs.declared.error.DecideError.{DecideError};
ghost use Rattle.ct_certain.specs.Faults.{fault_of, table_fault};
ghost use Rattle.ct_certain.specs.declared.error.CertainError.TheVariants as fault;

use ct_arena::Full;
use ct_decide::DecideError;
use ct_operators::TableError;
use ct_word::Memory;
use std::alloc::{AllocError, AllocFailed};
use thiserror::Error;

/// Why rows are not listed.
#[derive(Clone, Copy, Debug, PartialEq, Eq, Error)]
pub enum CertainError {
    /// The log has as many words as its capacity.
    #[error("the log is full")]
    Full,
    /// Memory was wanting.
    #[error("out of memory")]
    Memory,
}

impl From<Full> for CertainError {
    ghost from_gives = { λ _ e. e ≡ fault.Full };

    fn from(_: Full) -> Self {
        CertainError::Full
    }
}

impl From<DecideError> for CertainError {
    ghost from_gives = { λ x e. e ≡ fault_of x };

    fn from(error: DecideError) -> Self {
        match error {
            DecideError::Memory => CertainError::Memory,
        }
    }
}

impl From<TableError> for CertainError {
    ghost from_gives = { λ x e. e ≡ table_fault x };

    fn from(error: TableError) -> Self {
        match error {
            TableError::Full => CertainError::Full,
            TableError::Memory => CertainError::Memory,
        }
    }
}

impl From<Memory> for CertainError {
    ghost from_gives = { λ _ e. e ≡ fault.Memory };

    fn from(_: Memory) -> Self {
        CertainError::Memory
    }
}

impl From<AllocError> for CertainError {
    ghost from_gives = { λ _ e. e ≡ fault.Memory };

    fn from(_: AllocError) -> Self {
        CertainError::Memory
    }
}

impl<T: Drop> From<AllocFailed<T>> for CertainError {
    ghost from_gives = { λ _ e. e ≡ fault.Memory };

    fn from(_: AllocFailed<T>) -> Self {
        CertainError::Memory
    }
}
