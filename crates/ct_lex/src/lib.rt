//! Scripts and texts of statements: a script is cut into statement texts, and a text into tokens.
//!
//! `specs/Spelling.antt` says which bytes spell which token, one case for each line of the token
//! table; `specs/Tokens.antt` what the tokens of a text are, and which fault is its leftmost;
//! `specs/Texts.antt` what the statement texts of a script are.
#![tactic(auto)]

mod front;
mod lexing;
mod scan;
mod splitting;
mod token;

pub use lexing::{faults_are_read, tokens, tokens_are_read, tokens_are_written};
pub use splitting::{piece_len, split, texts_are_pieces};
pub use token::{LexError, Lexeme, Symbol, Token};
