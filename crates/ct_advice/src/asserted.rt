// What an assertion is about.

use crate::tokens::{is_word_at, word_at};
use ct_lex::{Token, tokens};
use ct_word::Memory;
use std::alloc::Global;

/// What an assertion says.
#[derive(Clone, Copy, PartialEq, Eq)]
pub enum Asserted {
    /// That a condition holds.
    Condition,
    /// That a query has a row.
    Exists,
    /// That a query has no row.
    NotExists,
    /// That no two different rows of a table agree in some columns.
    Key,
}

/// What a statement asserts, by its first words. Where it is no assertion over tables, it is taken for one of a condition.
pub fn asserted_by(tokens: &[Token]) -> Asserted {
    if !is_word_at(tokens, 0, "assert") {
        return Asserted::Condition;
    }
    match (word_at(tokens, 1), word_at(tokens, 2)) {
        ("exists", _) => Asserted::Exists,
        ("not", "exists") => Asserted::NotExists,
        ("key", table) if !table.is_empty() => Asserted::Key,
        _ => Asserted::Condition,
    }
}

/// Whether a text begins as an assertion over tables does.
///
/// # Errors
/// `Memory` where there is none for its tokens.
pub fn is_over_tables(alloc: Global, text: &str) -> Result<bool, Memory> {
    let Ok(tokens) = tokens(alloc, text) else {
        return Ok(false);
    };
    Ok(asserted_by(&tokens) != Asserted::Condition)
}
