// What the evaluation of a query refuses.

ghost use Rattle.std.specs.Prelude.{◌≡◌};
ghost use Rattle.ct_algebra.specs.Refusals.{refusal_of};
ghost use Rattle.ct_algebra.specs.declared.error.EvalError.TheVariants as fault;

use ct_table::TableError;
use ct_word::Memory;
use thiserror::Error;

/// Why a query has no answer.
#[derive(Clone, Copy, Debug, PartialEq, Eq, Error)]
pub enum EvalError {
    /// A part of the query goes through more than 16,777,216 rows or pairs of rows.
    #[error("the query is too large")]
    TooLarge,
    /// The log has as many words as its capacity.
    #[error("the log is full")]
    Full,
    /// Memory was wanting.
    #[error("out of memory")]
    Memory,
}

impl From<TableError> for EvalError {
    ghost from_gives = { λ t e. e ≡ refusal_of t };

    fn from(error: TableError) -> Self {
        match error {
            TableError::Full => EvalError::Full,
            TableError::Memory => EvalError::Memory,
        }
    }
}

impl From<Memory> for EvalError {
    ghost from_gives = { λ _ e. e ≡ fault.Memory };

    fn from(_: Memory) -> Self {
        EvalError::Memory
    }
}
