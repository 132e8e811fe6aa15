// Tokens, and why a text has none.

ghost use Rattle.std.specs.Prelude.{◌≡◌};
ghost use Rattle.ct_lex.specs.declared.token.LexError.TheVariants as fault;

use ct_word::{Memory, Text};
use std::alloc::{AllocError, AllocFailed};
use thiserror::Error;

/// A symbol. `!=` is read as `<>`.
#[derive(Clone, Copy, Debug, PartialEq, Eq)]
pub enum Symbol {
    LeftParen,
    RightParen,
    Comma,
    Dot,
    Star,
    Equal,
    Unequal,
}

/// What a token says: a word in lower case, a number, a text without its quotes, the name of a
/// marked null in lower case, or a symbol.
#[derive(Drop, PartialEq, Eq)]
pub enum Lexeme {
    Word(Text),
    Number(i64),
    Text(Text),
    Null(Text),
    Symbol(Symbol),
}

/// A token, and the places of its text where its spelling starts and ends, in bytes.
#[derive(Drop)]
pub struct Token {
    pub word: Lexeme,
    pub start: u64,
    pub end: u64,
}

/// Why a text has no tokens: the leftmost fault in it, or want of memory.
#[derive(Clone, Copy, Debug, PartialEq, Eq, Error)]
pub enum LexError {
    /// A quote opens a text that does not end.
    #[error("a text has no end")]
    OpenText,
    /// A byte outside a text and a comment begins no token.
    #[error("a byte begins no token")]
    StrayByte,
    /// A number is outside 64 bits signed.
    #[error("a number is out of range")]
    NumberRange,
    #[error("out of memory")]
    Memory,
}

impl From<Memory> for LexError {
    ghost from_gives = { λ _ e. e ≡ fault.Memory };

    fn from(_: Memory) -> Self {
        LexError::Memory
    }
}

impl From<AllocError> for LexError {
    ghost from_gives = { λ _ e. e ≡ fault.Memory };

    fn from(_: AllocError) -> Self {
        LexError::Memory
    }
}

impl<T: Drop> From<AllocFailed<T>> for LexError {
    ghost from_gives = { λ _ e. e ≡ fault.Memory };

    fn from(_: AllocFailed<T>) -> Self {
        LexError::Memory
    }
}
