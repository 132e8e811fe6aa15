// What a commit is refused for.

ghost use Rattle.std.specs.Prelude.{◌≡◌};
ghost use Rattle.ct_keeper.specs.declared.error.KeeperError.TheVariants as fault;
ghost use Rattle.ct_keeper.specs.Faults.{table_fault};

use ct_arena::Full;
use ct_table::TableError;
use ct_word::Memory;
use std::alloc::{AllocError, AllocFailed};
use thiserror::Error;

/// Why the keeper made no commit.
#[derive(Clone, Copy, Debug, PartialEq, Eq, Error)]
pub enum KeeperError {
    /// The log has as many words as its capacity.
    #[error("the log is full")]
    Full,
    /// Memory was wanting.
    #[error("out of memory")]
    Memory,
}

impl From<Full> for KeeperError {
    ghost from_gives = { λ _ e. e ≡ fault.Full };

    fn from(_: Full) -> Self {
        KeeperError::Full
    }
}

impl From<TableError> for KeeperError {
    ghost from_gives = { λ x e. e ≡ table_fault x };

    fn from(error: TableError) -> Self {
        match error {
            TableError::Full => KeeperError::Full,
            TableError::Memory => KeeperError::Memory,
        }
    }
}

impl From<Memory> for KeeperError {
    ghost from_gives = { λ _ e. e ≡ fault.Memory };

    fn from(_: Memory) -> Self {
        KeeperError::Memory
    }
}

impl From<AllocError> for KeeperError {
    ghost from_gives = { λ _ e. e ≡ fault.Memory };

    fn from(_: AllocError) -> Self {
        KeeperError::Memory
    }
}

impl<T: Drop> From<AllocFailed<T>> for KeeperError {
    ghost from_gives = { λ _ e. e ≡ fault.Memory };

    fn from(_: AllocFailed<T>) -> Self {
        KeeperError::Memory
    }
}
