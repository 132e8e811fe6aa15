// Why there are no clauses.

ghost use Rattle.std.specs.Prelude.{◌≡◌};
ghost use Rattle.ct_cnf.specs.declared.error.CnfError.TheVariants as fault;

use ct_word::Memory;
use std::alloc::{AllocError, AllocFailed};
use thiserror::Error;

/// Why a question has no clauses.
#[derive(Clone, Copy, Debug, PartialEq, Eq, Error)]
pub enum CnfError {
    #[error("out of memory")]
    Memory,
}

impl From<Memory> for CnfError {
    ghost from_gives = { λ _ e. e ≡ fault.Memory };

    fn from(_: Memory) -> Self {
        CnfError::Memory
    }
}

impl From<AllocError> for CnfError {
    ghost from_gives = { λ _ e. e ≡ fault.Memory };

    fn from(_: AllocError) -> Self {
        CnfError::Memory
    }
}

impl<T: Drop> From<AllocFailed<T>> for CnfError {
    ghost from_gives = { λ _ e. e ≡ fault.Memory };

    fn from(_: AllocFailed<T>) -> Self {
        CnfError::Memory
    }
}
