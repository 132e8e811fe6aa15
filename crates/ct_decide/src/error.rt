// Why there is no decision.

ghost use Rattle.std.specs.Prelude.{◌≡◌};
ghost use Rattle.ct_decide.specs.declared.error.DecideError.TheVariants as fault;

use ct_cnf::CnfError;
use ct_word::Memory;
use std::alloc::{AllocError, AllocFailed};
use thiserror::Error;

/// Why a question is not decided.
#[derive(Clone, Copy, Debug, PartialEq, Eq, Error)]
pub enum DecideError {
    #[error("out of memory")]
    Memory,
}

impl From<CnfError> for DecideError {
    ghost from_gives = { λ _ e. e ≡ fault.Memory };

    fn from(_: CnfError) -> Self {
        DecideError::Memory
    }
}

impl From<Memory> for DecideError {
    ghost from_gives = { λ _ e. e ≡ fault.Memory };

    fn from(_: Memory) -> Self {
        DecideError::Memory
    }
}

impl From<AllocError> for DecideError {
    ghost from_gives = { λ _ e. e ≡ fault.Memory };

    fn from(_: AllocError) -> Self {
        DecideError::Memory
    }
}

impl<T: Drop> From<AllocFailed<T>> for DecideError {
    ghost from_gives = { λ _ e. e ≡ fault.Memory };

    fn from(_: AllocFailed<T>) -> Self {
        DecideError::Memory
    }
}
