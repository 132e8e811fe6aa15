// Why tokens are read as no statement.

ghost use Rattle.std.specs.Prelude.{◌≡◌};
ghost use Rattle.ct_parse.specs.Parses.{error_of};
ghost use Rattle.ct_parse.specs.declared.error.ParseError.TheVariants as fault;
ghost use Rattle.ct_parse.specs.declared.error.Unread.TheVariants as unread;

use ct_word::Memory;
use std::alloc::{AllocError, AllocFailed};
use thiserror::Error;

/// Why tokens are read as no statement or condition.
#[derive(Clone, Copy, Debug, PartialEq, Eq, Error)]
pub enum ParseError {
    /// No statement spells the tokens.
    #[error("the text is no statement")]
    NotAStatement,
    /// Parentheses and NOTs nest deeper than 64, or there are more than 64 set operators.
    #[error("the text nests too deep")]
    TooDeep,
    #[error("out of memory")]
    Memory,
}

/// Why a part is not read at the front of tokens.
#[derive(Clone, Copy, Debug, PartialEq, Eq)]
pub enum Unread {
    /// Nothing spells it. Where reading stopped this many tokens were left.
    NotSpelled(usize),
    Memory,
}

impl From<Memory> for Unread {
    ghost from_gives = { λ _ e. e ≡ unread.Memory };

    fn from(_: Memory) -> Self {
        Unread::Memory
    }
}

impl From<AllocError> for Unread {
    ghost from_gives = { λ _ e. e ≡ unread.Memory };

    fn from(_: AllocError) -> Self {
        Unread::Memory
    }
}

impl<T: Drop> From<AllocFailed<T>> for Unread {
    ghost from_gives = { λ _ e. e ≡ unread.Memory };

    fn from(_: AllocFailed<T>) -> Self {
        Unread::Memory
    }
}

impl From<Memory> for ParseError {
    ghost from_gives = { λ _ e. e ≡ fault.Memory };

    fn from(_: Memory) -> Self {
        ParseError::Memory
    }
}

impl From<Unread> for ParseError {
    ghost from_gives = { λ why e. e ≡ error_of why };

    fn from(why: Unread) -> Self {
        match why {
            Unread::NotSpelled(_) => ParseError::NotAStatement,
            Unread::Memory => ParseError::Memory,
        }
    }
}
