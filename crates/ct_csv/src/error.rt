// Why bytes are no file of a table, and why a table has no file.

ghost use Rattle.std.specs.Prelude.{◌≡◌};
ghost use Rattle.ct_csv.specs.declared.error.ImportError.TheVariants as fault;
ghost use Rattle.ct_csv.specs.declared.error.WideError.TheVariants as wide;

use ct_word::Memory;
use std::alloc::{AllocError, AllocFailed};
use thiserror::Error;

/// Why bytes are no file of a table. The first that holds is answered.
#[derive(Clone, Copy, Debug, PartialEq, Eq, Error)]
pub enum ImportError {
    /// The bytes are no text, or a record has another number of fields than the first.
    #[error("the file is no CSV")]
    NotCsv,
    /// There is no first record, or it is not one or more names and then `if`.
    #[error("the first record does not name the columns")]
    BadHeader,
    /// A field below the first record is no cell, or the last of its record no condition.
    #[error("field {field} of record {number} is no cell and no condition")]
    BadCell {
        /// The record's number, where the first record of the file is 1.
        number: u64,
        /// The field's number in it, from 1.
        field: u64,
    },
    #[error("out of memory")]
    Memory,
}

impl From<Memory> for ImportError {
    ghost from_gives = { λ _ e. e ≡ fault.Memory };

    fn from(_: Memory) -> Self {
        ImportError::Memory
    }
}

impl From<AllocError> for ImportError {
    ghost from_gives = { λ _ e. e ≡ fault.Memory };

    fn from(_: AllocError) -> Self {
        ImportError::Memory
    }
}

impl<T: Drop> From<AllocFailed<T>> for ImportError {
    ghost from_gives = { λ _ e. e ≡ fault.Memory };

    fn from(_: AllocFailed<T>) -> Self {
        ImportError::Memory
    }
}

/// Why there is no file of a table. The first that holds is answered.
#[derive(Clone, Copy, Debug, PartialEq, Eq, Error)]
pub enum WideError {
    /// The condition of a row is printed, without new names for nulls, in more than 65,536 bytes or with more than 64
    /// parentheses open at once. It is the first such row.
    #[error("the condition of row {row} is too wide for a file")]
    TooWide {
        /// The row's number in the table, from 1.
        row: u64,
    },
    #[error("out of memory")]
    Memory,
}

impl From<Memory> for WideError {
    ghost from_gives = { λ _ e. e ≡ wide.Memory };

    fn from(_: Memory) -> Self {
        WideError::Memory
    }
}

impl From<AllocError> for WideError {
    ghost from_gives = { λ _ e. e ≡ wide.Memory };

    fn from(_: AllocError) -> Self {
        WideError::Memory
    }
}

impl<T: Drop> From<AllocFailed<T>> for WideError {
    ghost from_gives = { λ _ e. e ≡ wide.Memory };

    fn from(_: AllocFailed<T>) -> Self {
        WideError::Memory
    }
}
