// Tokens as they are looked for.

ghost use Rattle.std.specs.Prelude.{◌≡◌, ◌↔◌, IsTrue};
ghost use Rattle.ct_advice.specs.Tokens.{word_of};

use ct_lex::{Lexeme, Symbol, Token};
use ct_parse::name_of;
use ct_word::Memory;
use std::alloc::Global;

/// Whether two texts are the same. Most that are compared are not, and differ in their lengths or first bytes.
pub fn is_same(one: &str, other: &str) -> bool
    ensures { IsTrue result ↔ (one.now ≡ other.now) }
{
    if one.len() != other.len() {
        return false;
    }
    match (one.as_bytes(), other.as_bytes()) {
        ([first, ..], [second, ..]) => first == second && one == other,
        _ => true,
    }
}

/// The word that a token is, in lower case, or an empty text.
pub fn word(token: &Token) -> &str
    ensures { result.now ≡ word_of token.now }
{
    match &token.word {
        Lexeme::Word(text) => text.as_str(),
        _ => "",
    }
}

/// Whether a token is this symbol.
pub fn is_symbol(token: &Token, symbol: Symbol) -> bool {
    match &token.word {
        Lexeme::Symbol(other) => *other == symbol,
        _ => false,
    }
}

/// The word at a position, or an empty text.
pub fn word_at(tokens: &[Token], i: usize) -> &str {
    match tokens.get(i) {
        Some(token) => word(token),
        None => "",
    }
}

/// Whether the token at a position is this word.
pub fn is_word_at(tokens: &[Token], i: usize, text: &str) -> bool {
    match tokens.get(i) {
        Some(token) => is_same(word(token), text),
        None => false,
    }
}

/// Whether the token at a position is one of these words.
pub fn is_among_at(tokens: &[Token], i: usize, words: &[&str]) -> bool {
    words.iter().any(|word| is_word_at(tokens, i, word))
}

/// Whether the token at a position is this symbol.
pub fn is_symbol_at(tokens: &[Token], i: usize, symbol: Symbol) -> bool {
    match tokens.get(i) {
        Some(token) => is_symbol(token, symbol),
        None => false,
    }
}

/// Whether a number stands there.
pub fn is_number_at(tokens: &[Token], i: usize) -> bool {
    match tokens.get(i) {
        Some(token) => matches!(&token.word, Lexeme::Number(_)),
        None => false,
    }
}

/// Whether a text stands there.
pub fn is_text_at(tokens: &[Token], i: usize) -> bool {
    match tokens.get(i) {
        Some(token) => matches!(&token.word, Lexeme::Text(_)),
        None => false,
    }
}

/// Whether a number, a text or a null with a name stands there.
pub fn is_cell_at(tokens: &[Token], i: usize) -> bool {
    match tokens.get(i) {
        Some(token) => matches!(
            &token.word,
            Lexeme::Number(_) | Lexeme::Text(_) | Lexeme::Null(_)
        ),
        None => false,
    }
}

/// Whether a null with a name stands there.
pub fn is_null_at(tokens: &[Token], i: usize) -> bool {
    match tokens.get(i) {
        Some(token) => matches!(&token.word, Lexeme::Null(_)),
        None => false,
    }
}

/// Whether the token at a position is a word that is no keyword.
///
/// # Errors
/// `Memory` where there is none for the name.
pub fn is_name_at(alloc: Global, tokens: &[Token], i: usize) -> Result<bool, Memory> {
    Ok(name_of(alloc, word_at(tokens, i))?.is_some())
}

/// Whether the token at a position is a keyword.
///
/// # Errors
/// `Memory` where there is none for its text.
pub fn is_keyword_at(alloc: Global, tokens: &[Token], i: usize) -> Result<bool, Memory> {
    let is_word = !word_at(tokens, i).is_empty();
    Ok(is_word && !is_name_at(alloc, tokens, i)?)
}
