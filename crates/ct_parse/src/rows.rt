// Lists of names, cells and rows, and conditions behind a word.

ghost use Rattle.std.specs.Prelude.{◌≡◌, ◌≢◌, IfOk, IfErr};
ghost use Rattle.ct_parse.specs.Grammar.{said, IsName, AreMore, IsClosed, IsCell, IsRow, HasCondition};
ghost use Rattle.ct_parse.specs.Ends.{EndsAnyhow, EndsItem, EndsItems, EndsBehind};
ghost use Rattle.ct_parse.specs.Reads.{Reads, Never};
ghost use Rattle.ct_parse.specs.declared.error.Unread.TheVariants as unread;

use crate::conditions::condition;
use crate::error::Unread;
use crate::front::{behind_symbol, behind_word, expect_symbol, front, name};
use crate::tree::{Cell, Condition, Row};
use ct_lex::{Lexeme, Symbol, Token};
use ct_word::{List, Text};
use std::alloc::Global;

/// What stands in lists behind commas. It ends where neither AS nor a dot stands behind it.
pub trait Part {
    ghost use Rattle.std.specs.Prelude.{List};
    ghost use Rattle.ct_lex.specs.declared.token.Lexeme.{Lexeme};

    /// Which lexemes spell it, and what is left of them.
    ghost spelled: { List Lexeme → Self → List Lexeme → Type 0 };

    /// The part in front, and the tokens behind it.
    fn read(alloc: Global, tokens: &[Token]) -> Result<(Self, &[Token]), Unread>
        ensures ok { IfOk result (λ p. Reads spelled EndsItem (said tokens.now) p.0 (said p.1.now)) }
        ensures none { IfErr result (λ e. e ≢ unread.Memory → Never spelled EndsItem (said tokens.now)) };
}

impl Part for Text {
    ghost spelled = { IsName };

    fn read(alloc: Global, tokens: &[Token]) -> Result<(Text, &[Token]), Unread> {
        name(alloc, tokens)
    }
}

impl Part for Cell {
    ghost spelled = { IsCell };

    fn read(alloc: Global, tokens: &[Token]) -> Result<(Cell, &[Token]), Unread> {
        if let Some(rest) = behind_word(tokens, "null") {
            return Ok((Cell::NewNull, rest));
        }
        let Some((first, rest)) = front(tokens) else {
            return Err(Unread::NotSpelled(tokens.len()));
        };
        match first {
            Lexeme::Number(number) => Ok((Cell::Number(*number), rest)),
            Lexeme::Text(text) => Ok((Cell::Text(text.clone()?), rest)),
            Lexeme::Null(name) => Ok((Cell::Null(name.clone()?), rest)),
            _ => Err(Unread::NotSpelled(tokens.len())),
        }
    }
}

impl Part for Row {
    ghost spelled = { IsRow };

    fn read(alloc: Global, tokens: &[Token]) -> Result<(Row, &[Token]), Unread> {
        let ((first, others), rest) = in_parentheses::<Cell>(alloc, tokens)?;
        Ok((
            Row {
                first,
                rest: others,
            },
            rest,
        ))
    }
}

/// Each part behind a comma.
pub fn more<P: Part + Drop>(alloc: Global, tokens: &[Token]) -> Result<(List<P>, &[Token]), Unread>
    ensures ok { IfOk result (λ p. Reads (AreMore P.spelled) EndsItems (said tokens.now) p.0 (said p.1.now)) }
    ensures none { IfErr result (λ e. e ≢ unread.Memory → Never (AreMore P.spelled) EndsItems (said tokens.now)) }
{
    let mut found = Vec::new(alloc);
    let mut rest = tokens;
    while let Some(tail) = behind_symbol(rest, Symbol::Comma) {
        let (next, after) = P::read(alloc, tail)?;
        found.push(next)?;
        rest = after;
    }
    Ok((List::from_vec(found), rest))
}

/// Parts in parentheses: the first and the others.
pub fn in_parentheses<P: Part + Drop>(
    alloc: Global,
    tokens: &[Token],
) -> Result<((P, List<P>), &[Token]), Unread>
    ensures ok { IfOk result (λ p. Reads (IsClosed P.spelled) EndsAnyhow (said tokens.now) p.0 (said p.1.now)) }
    ensures none { IfErr result (λ e. e ≢ unread.Memory → Never (IsClosed P.spelled) EndsAnyhow (said tokens.now)) }
{
    let tail = expect_symbol(tokens, Symbol::LeftParen)?;
    let (first, rest) = P::read(alloc, tail)?;
    let (others, rest) = match more::<P>(alloc, rest) {
        Ok(found) => found,
        Err(unread) => {
            drop(first);
            return Err(unread);
        }
    };
    let Some(tail) = behind_symbol(rest, Symbol::RightParen) else {
        drop(first);
        drop(others);
        return Err(Unread::NotSpelled(rest.len()));
    };
    Ok(((first, others), tail))
}

/// The condition behind this word, where the word stands in front.
pub fn condition_behind<'a>(
    alloc: Global,
    tokens: &'a [Token],
    word: &str,
) -> Result<(Option<Condition>, &'a [Token]), Unread>
    ensures ok { IfOk result (λ p. Reads (HasCondition word.now) (EndsBehind word.now) (said tokens.now) p.0 (said p.1.now)) }
    ensures none { IfErr result (λ e. e ≢ unread.Memory → Never (HasCondition word.now) (EndsBehind word.now) (said tokens.now)) }
{
    let Some(tail) = behind_word(tokens, word) else {
        return Ok((None, tokens));
    };
    let (found, rest) = condition(alloc, tail)?;
    Ok((Some(found), rest))
}
