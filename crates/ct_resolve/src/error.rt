// Why a statement is not resolved.

ghost use Rattle.std.specs.Prelude.{◌≡◌};
ghost use Rattle.ct_resolve.specs.declared.error.ResolveError.TheVariants as fault;

use ct_word::Memory;
use std::alloc::{AllocError, AllocFailed};
use thiserror::Error;

/// Why a statement is not resolved.
#[derive(Clone, Copy, Debug, PartialEq, Eq, Error)]
pub enum ResolveError {
    /// A table that is named is not in the schema.
    #[error("a table is not there")]
    UnknownTable,
    /// A table is to be created whose name is in the schema.
    #[error("a table is there already")]
    TableExists,
    /// No table in scope has a column that is named.
    #[error("a column is not there")]
    UnknownColumn,
    /// Two or more tables in scope have a column that is named without its table.
    #[error("a column is in two tables")]
    AmbiguousColumn,
    /// Two columns of a new table or of a key, two sets, or two tables of a FROM have one name.
    #[error("a name is given twice")]
    DuplicateName,
    /// Numbers of columns differ.
    #[error("numbers of columns differ")]
    ColumnCount,
    #[error("out of memory")]
    Memory,
}

impl From<Memory> for ResolveError {
    ghost from_gives = { λ _ e. e ≡ fault.Memory };

    fn from(_: Memory) -> Self {
        ResolveError::Memory
    }
}

impl From<AllocError> for ResolveError {
    ghost from_gives = { λ _ e. e ≡ fault.Memory };

    fn from(_: AllocError) -> Self {
        ResolveError::Memory
    }
}

impl<T: Drop> From<AllocFailed<T>> for ResolveError {
    ghost from_gives = { λ _ e. e ≡ fault.Memory };

    fn from(_: AllocFailed<T>) -> Self {
        ResolveError::Memory
    }
}
