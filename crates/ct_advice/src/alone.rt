// Assertions that are false by themselves.

use crate::tokens::{is_same, is_symbol_at, is_word_at, word};
use ct_lex::{Lexeme, Symbol, Token, tokens};
use ct_word::{Memory, Text};
use indexmap::IndexSet;
use std::alloc::Global;

/// How many tokens of an assertion are looked at.
const MOST: usize = 256;

/// A term of comparisons, and the class of terms that the equations make equal to it.
#[derive(Clone, Copy)]
struct Member<'a> {
    term: &'a Lexeme,
    class: usize,
}

impl Member<'_> {
    fn is_constant(&self) -> bool {
        matches!(self.term, Lexeme::Number(_) | Lexeme::Text(_))
    }
}

/// The class of a term, which is a new one where it has none yet.
fn class_of<'a>(members: &mut Vec<Member<'a>>, term: &'a Lexeme) -> Result<usize, Memory> {
    for member in members.iter() {
        if *member.term == *term {
            return Ok(member.class);
        }
    }
    let class = members.len();
    members.push(Member { term, class })?;
    Ok(class)
}

/// The classes of the two terms around a position.
fn sides<'a>(
    members: &mut Vec<Member<'a>>,
    tokens: &'a [Token],
    i: usize,
) -> Result<Option<(usize, usize)>, Memory> {
    let (left, right) = (
        tokens.get(i.saturating_sub(1)),
        tokens.get(i.saturating_add(1)),
    );
    let (Some(left), Some(right)) = (left, right) else {
        return Ok(None);
    };
    Ok(Some((
        class_of(members, &left.word)?,
        class_of(members, &right.word)?,
    )))
}

fn unite(members: &mut Vec<Member>, to: usize, from: usize) {
    for member in members.iter_mut() {
        if member.class == from {
            member.class = to;
        }
    }
}

/// Whether a class has two constants.
fn has_clash(alloc: Global, members: &[Member]) -> Result<bool, Memory> {
    let mut seen = IndexSet::new(alloc);
    for member in members {
        if member.is_constant() && !seen.insert(member.class)? {
            return Ok(true);
        }
    }
    Ok(false)
}

/// The terms of a conjunction, in the classes that its equations make.
fn united<'a>(alloc: Global, tokens: &'a [Token]) -> Result<Vec<Member<'a>>, Memory> {
    let mut members = Vec::new(alloc);
    for i in 0..tokens.len() {
        if is_symbol_at(tokens, i, Symbol::Equal) {
            if let Some((left, right)) = sides(&mut members, tokens, i)? {
                unite(&mut members, left, right);
            }
        }
    }
    Ok(members)
}

/// Whether a conjunction of comparisons is false whatever its nulls are.
fn is_false(alloc: Global, tokens: &[Token]) -> Result<bool, Memory> {
    let mut members = united(alloc, tokens)?;
    if has_clash(alloc, &members)? {
        return Ok(true);
    }
    for i in 0..tokens.len() {
        if is_word_at(tokens, i, "false") {
            return Ok(true);
        }
        if is_symbol_at(tokens, i, Symbol::Unequal) {
            if let Some((left, right)) = sides(&mut members, tokens, i)? {
                if left == right {
                    return Ok(true);
                }
            }
        }
    }
    Ok(false)
}

fn is_nested(token: &Token) -> bool {
    matches!(&token.word, Lexeme::Symbol(Symbol::LeftParen)) || is_same(word(token), "not")
}

/// Whether it can be seen at once that an assertion is false whatever its nulls are: where it is short, and has neither
/// parentheses nor NOT.
///
/// # Errors
/// `Memory` where there is none for its terms.
pub fn is_false_alone(alloc: Global, tokens: &[Token]) -> Result<bool, Memory> {
    if tokens.len() > MOST || tokens.iter().any(is_nested) {
        return Ok(false);
    }
    let mut start = 1;
    for i in 1..tokens.len().saturating_add(1) {
        if i == tokens.len() || is_word_at(tokens, i, "or") {
            if !is_false(alloc, tokens.get(start..i).unwrap_or(&[]))? {
                return Ok(false);
            }
            start = i.saturating_add(1);
        }
    }
    Ok(true)
}

/// Adds the names of the nulls of a text.
///
/// # Errors
/// `Memory` where there is none for the names.
pub fn add_nulls(alloc: Global, names: &mut IndexSet<Text>, text: &str) -> Result<(), Memory> {
    let Ok(tokens) = tokens(alloc, text) else {
        return Ok(());
    };
    for token in &tokens {
        if let Lexeme::Null(name) = &token.word {
            names.insert(name.clone()?)?;
        }
    }
    Ok(())
}

/// Whether a token is a null that has one of these names.
pub fn has_null(names: &IndexSet<Text>, tokens: &[Token]) -> bool {
    for token in tokens {
        if let Lexeme::Null(name) = &token.word {
            if names.contains(name) {
                return true;
            }
        }
    }
    false
}
