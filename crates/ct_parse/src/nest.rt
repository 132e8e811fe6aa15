// How deep tokens nest, and how many set operators they have.

ghost use Rattle.std.specs.Prelude.{◌≡◌, ◌≤◌, nat_lt, reverse, is_some, IfOk, OnOk};
ghost use Rattle.ct_parse.specs.Grammar.{said};
ghost use Rattle.ct_parse.specs.Nest as spec;

use crate::front::front;
use ct_lex::{Lexeme, Symbol, Token};
use ct_word::Memory;
use std::alloc::Global;

/// The greatest nest, and the greatest number of set operators.
const DEPTH: usize = 64;

/// What a lexeme does to the nest.
#[derive(Clone, Copy)]
pub enum Turn {
    Opens,
    Closes,
    Negates,
    Joins,
    Stays,
}

fn turn_of(lexeme: &Lexeme) -> Turn
    ensures { result ≡ spec.turn_of lexeme.now }
{
    match lexeme {
        Lexeme::Symbol(Symbol::LeftParen) => Turn::Opens,
        Lexeme::Symbol(Symbol::RightParen) => Turn::Closes,
        Lexeme::Word(word) => match word.as_str() {
            "not" => Turn::Negates,
            "and" | "or" => Turn::Joins,
            _ => Turn::Stays,
        },
        _ => Turn::Stays,
    }
}

fn is_set_operator(lexeme: &Lexeme) -> bool
    ensures { result ≡ spec.is_set_operator lexeme.now }
{
    match lexeme {
        Lexeme::Word(word) => matches!(word.as_str(), "union" | "except" | "intersect"),
        _ => false,
    }
}

/// The count after a lexeme. `opened` has the counts where the open levels were opened, the innermost
/// last.
fn count_after(opened: &mut Vec<usize>, count: usize, turn: Turn) -> Result<usize, Memory>
    requires count { count ≤ spec.DEPTH }
    requires opened { spec.AreShallow (reverse opened.old.items) }
    ensures count { IfOk result (λ n. n ≡ spec.count_after (reverse opened.old.items) count turn) }
    ensures opened { OnOk result (reverse opened.new.items ≡ spec.opened_after (reverse opened.old.items) count turn) }
{
    match turn {
        Turn::Opens => {
            opened.push(count)?;
            Ok(count + 1)
        }
        Turn::Closes => Ok(opened.pop().unwrap_or(count)),
        Turn::Negates => Ok(count + 1),
        Turn::Joins => match opened.last() {
            Some(start) => Ok(*start + 1),
            None => Ok(0),
        },
        Turn::Stays => Ok(count),
    }
}

/// How many tokens are left where the nest is greater than 64, the one that makes it so among them.
fn nest_passed(alloc: Global, tokens: &[Token]) -> Result<Option<usize>, Memory>
    ensures { IfOk result (λ o. is_some o ≡ nat_lt spec.DEPTH (spec.nest (said tokens.now))) }
{
    let mut opened = Vec::new(alloc);
    let mut count = 0;
    let mut rest = tokens;
    while let Some((first, after)) = front(rest) {
        count = count_after(&mut opened, count, turn_of(first))?;
        if count > DEPTH {
            return Ok(Some(rest.len()));
        }
        rest = after;
    }
    Ok(None)
}

/// How many tokens are left at the set operator behind 64 others.
fn operators_passed(tokens: &[Token]) -> Option<usize>
    ensures { is_some result ≡ nat_lt spec.DEPTH (spec.set_operators (said tokens.now)) }
{
    let mut count = 0;
    let mut rest = tokens;
    while let Some((first, after)) = front(rest) {
        if is_set_operator(first) {
            if count == DEPTH {
                return Some(rest.len());
            }
            count += 1;
        }
        rest = after;
    }
    None
}

/// How many tokens are left at the first by which they nest deeper than 64, or else at the first by
/// which they have more than 64 set operators.
pub fn depth_passed(alloc: Global, tokens: &[Token]) -> Result<Option<usize>, Memory>
    ensures { IfOk result (λ o. is_some o ≡ spec.is_too_deep (said tokens.now)) }
{
    match nest_passed(alloc, tokens)? {
        Some(left) => Ok(Some(left)),
        None => Ok(operators_passed(tokens)),
    }
}

/// Whether tokens nest deeper than 64, or have more than 64 set operators.
pub fn is_too_deep(alloc: Global, tokens: &[Token]) -> Result<bool, Memory>
    ensures { IfOk result (λ b. b ≡ spec.is_too_deep (said tokens.now)) }
{
    Ok(depth_passed(alloc, tokens)?.is_some())
}
