// Columns, terms and comparisons.

ghost use Rattle.std.specs.Prelude.{◌≡◌, ◌≢◌, IfOk, IfErr};
ghost use Rattle.ct_parse.specs.Grammar.{said, IsColumn, IsTerm, IsComparison};
ghost use Rattle.ct_parse.specs.Ends.{EndsAnyhow, EndsColumn};
ghost use Rattle.ct_parse.specs.Reads.{Reads, Never};
ghost use Rattle.ct_parse.specs.declared.error.Unread.TheVariants as unread;

use crate::error::Unread;
use crate::front::{behind_symbol, front, name};
use crate::tree::{Column, Comparison, Term};
use ct_lex::{Lexeme, Symbol, Token};
use std::alloc::Global;

/// A column, with its table and a dot or alone.
pub fn column(alloc: Global, tokens: &[Token]) -> Result<(Column, &[Token]), Unread>
    ensures ok { IfOk result (λ p. Reads IsColumn EndsColumn (said tokens.now) p.0 (said p.1.now)) }
    ensures none { IfErr result (λ e. e ≢ unread.Memory → Never IsColumn EndsColumn (said tokens.now)) }
{
    let (first, rest) = name(alloc, tokens)?;
    let Some(tail) = behind_symbol(rest, Symbol::Dot) else {
        return Ok((Column::Plain(first), rest));
    };
    match name(alloc, tail) {
        Ok((second, rest)) => Ok((Column::Qualified(first, second), rest)),
        Err(unread) => {
            drop(first);
            Err(unread)
        }
    }
}

/// A number, a text, a marked null or a column.
pub fn term(alloc: Global, tokens: &[Token]) -> Result<(Term, &[Token]), Unread>
    ensures ok { IfOk result (λ p. Reads IsTerm EndsColumn (said tokens.now) p.0 (said p.1.now)) }
    ensures none { IfErr result (λ e. e ≢ unread.Memory → Never IsTerm EndsColumn (said tokens.now)) }
{
    let Some((first, rest)) = front(tokens) else {
        return Err(Unread::NotSpelled(tokens.len()));
    };
    match first {
        Lexeme::Number(number) => Ok((Term::Number(*number), rest)),
        Lexeme::Text(text) => Ok((Term::Text(text.clone()?), rest)),
        Lexeme::Null(name) => Ok((Term::Null(name.clone()?), rest)),
        _ => {
            let (column, rest) = column(alloc, tokens)?;
            Ok((Term::Column(column), rest))
        }
    }
}

/// The sign of a comparison.
pub fn comparison(tokens: &[Token]) -> Result<(Comparison, &[Token]), Unread>
    ensures ok { IfOk result (λ p. Reads IsComparison EndsAnyhow (said tokens.now) p.0 (said p.1.now)) }
    ensures none { IfErr result (λ e. e ≢ unread.Memory → Never IsComparison EndsAnyhow (said tokens.now)) }
{
    match front(tokens) {
        Some((Lexeme::Symbol(Symbol::Equal), rest)) => Ok((Comparison::Equal, rest)),
        Some((Lexeme::Symbol(Symbol::Unequal), rest)) => Ok((Comparison::Unequal, rest)),
        _ => Err(Unread::NotSpelled(tokens.len())),
    }
}
