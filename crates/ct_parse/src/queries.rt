// Queries.

ghost use Rattle.std.specs.Prelude.{◌≡◌, ◌≢◌, ◌<◌, ◌∷◌, List as ListValue, length, IfOk, IfErr, IfSome, IfNone};
ghost use Rattle.ct_lex.specs.declared.token.Lexeme.{Lexeme};
ghost use Rattle.ct_lex.specs.declared.token.Lexeme.TheVariants as lexical;
ghost use Rattle.ct_lex.specs.declared.token.Symbol.TheVariants as symbol;
ghost use Rattle.ct_parse.specs.Grammar.{said, IsDistinct, IsSetOperator, IsPrimary, ArePrimaries, IsQueryTerm, AreTerms, IsQuery, IsEnclosed};
ghost use Rattle.ct_parse.specs.Source.{IsSource};
ghost use Rattle.ct_parse.specs.Ends.{Fails, at_operator, EndsAnyhow, EndsDistinct, EndsSelect, EndsQueryTerm, EndsQuery};
ghost use Rattle.ct_parse.specs.Reads.{Reads, Never};
ghost use Rattle.ct_parse.specs.declared.error.Unread.TheVariants as unread;

use crate::error::Unread;
use crate::front::{behind_symbol, behind_word, closed, expect_symbol, expect_word};
use crate::rows::condition_behind;
use crate::tables::{items, tables};
use crate::tree::{Condition, Query, QueryPrimary, QueryTerm, Select, SetOperator, Tables};
use ct_lex::{Symbol, Token};
use ct_word::List;
use std::alloc::Global;

/// Whether DISTINCT stands in front, and the tokens behind it.
fn distinct(tokens: &[Token]) -> (bool, &[Token])
    ensures { Reads IsDistinct EndsDistinct (said tokens.now) result.0 (said result.1.now) }
{
    match behind_word(tokens, "distinct") {
        Some(rest) => (true, rest),
        None => (false, tokens),
    }
}

/// The tables of a SELECT, and its condition.
fn source(
    alloc: Global,
    tokens: &[Token],
) -> Result<((Tables, Option<Condition>), &[Token]), Unread>
    ensures ok { IfOk result (λ p. Reads IsSource EndsSelect (said tokens.now) p.0 (said p.1.now)) }
    ensures none { IfErr result (λ e. e ≢ unread.Memory → Never IsSource EndsSelect (said tokens.now)) }
{
    let tail = expect_word(tokens, "from")?;
    let (tables, rest) = tables(alloc, tail)?;
    match condition_behind(alloc, rest, "where") {
        Ok((condition, rest)) => Ok(((tables, condition), rest)),
        Err(unread) => {
            drop(tables);
            Err(unread)
        }
    }
}

/// A SELECT, which is a primary.
fn select(alloc: Global, tokens: &[Token]) -> Result<(QueryPrimary, &[Token]), Unread>
    requires { (r : ListValue Lexeme) → said tokens.now ≡ lexical.Symbol symbol.LeftParen ∷ r → ⊥ }
    ensures ok { IfOk result (λ p. Reads IsPrimary EndsSelect (said tokens.now) p.0 (said p.1.now)) }
    ensures none { IfErr result (λ e. e ≢ unread.Memory → Never IsPrimary EndsSelect (said tokens.now)) }
{
    let tail = expect_word(tokens, "select")?;
    let (is_distinct, rest) = distinct(tail);
    let (items, rest) = items(alloc, rest)?;
    let ((tables, condition), rest) = match source(alloc, rest) {
        Ok(found) => found,
        Err(unread) => {
            drop(items);
            return Err(unread);
        }
    };
    Ok((
        QueryPrimary::Select(Select {
            is_distinct,
            items,
            tables,
            condition,
        }),
        rest,
    ))
}

/// UNION or EXCEPT, and the tokens behind it.
fn set_operator(tokens: &[Token]) -> Option<(SetOperator, &[Token])>
    ensures some { IfSome result (λ p. Reads IsSetOperator EndsAnyhow (said tokens.now) p.0 (said p.1.now)) }
    ensures none { IfNone result (Fails (at_operator (said tokens.now))) }
    ensures shorter { IfSome result (λ p. length (said p.1.now) < length (said tokens.now)) }
{
    if let Some(rest) = behind_word(tokens, "union") {
        return Some((SetOperator::Union, rest));
    }
    if let Some(rest) = behind_word(tokens, "except") {
        return Some((SetOperator::Except, rest));
    }
    None
}

/// A query in parentheses, or a SELECT.
#[cycle(query)]
fn primary(alloc: Global, tokens: &[Token]) -> Result<(QueryPrimary, &[Token]), Unread>
    ensures ok { IfOk result (λ p. Reads IsPrimary EndsSelect (said tokens.now) p.0 (said p.1.now)) }
    ensures none { IfErr result (λ e. e ≢ unread.Memory → Never IsPrimary EndsSelect (said tokens.now)) }
{
    let Some(tail) = behind_symbol(tokens, Symbol::LeftParen) else {
        return select(alloc, tokens);
    };
    let (inner, rest) = query(alloc, tail)?;
    let (nested, rest) = closed(alloc, inner, rest)?;
    Ok((QueryPrimary::Nested(nested), rest))
}

/// Each primary behind an INTERSECT.
#[cycle(query)]
fn primaries(alloc: Global, tokens: &[Token]) -> Result<(List<QueryPrimary>, &[Token]), Unread>
    ensures ok { IfOk result (λ p. Reads ArePrimaries EndsQueryTerm (said tokens.now) p.0 (said p.1.now)) }
    ensures none { IfErr result (λ e. e ≢ unread.Memory → Never ArePrimaries EndsQueryTerm (said tokens.now)) }
{
    let mut found = Vec::new(alloc);
    let mut rest = tokens;
    while let Some(tail) = behind_word(rest, "intersect") {
        let (next, after) = primary(alloc, tail)?;
        found.push(next)?;
        rest = after;
    }
    Ok((List::from_vec(found), rest))
}

/// Primaries joined by INTERSECT.
#[cycle(query)]
fn query_term(alloc: Global, tokens: &[Token]) -> Result<(QueryTerm, &[Token]), Unread>
    ensures ok { IfOk result (λ p. Reads IsQueryTerm EndsQueryTerm (said tokens.now) p.0 (said p.1.now)) }
    ensures none { IfErr result (λ e. e ≢ unread.Memory → Never IsQueryTerm EndsQueryTerm (said tokens.now)) }
{
    let (first, rest) = primary(alloc, tokens)?;
    match primaries(alloc, rest) {
        Ok((primaries, rest)) => Ok((
            QueryTerm {
                first,
                rest: primaries,
            },
            rest,
        )),
        Err(unread) => {
            drop(first);
            Err(unread)
        }
    }
}

/// Each term behind a UNION or EXCEPT.
#[cycle(query)]
fn query_terms(
    alloc: Global,
    tokens: &[Token],
) -> Result<(List<(SetOperator, QueryTerm)>, &[Token]), Unread>
    ensures ok { IfOk result (λ p. Reads AreTerms EndsQuery (said tokens.now) p.0 (said p.1.now)) }
    ensures none { IfErr result (λ e. e ≢ unread.Memory → Never AreTerms EndsQuery (said tokens.now)) }
{
    let mut found = Vec::new(alloc);
    let mut rest = tokens;
    while let Some((operator, tail)) = set_operator(rest) {
        let (term, after) = query_term(alloc, tail)?;
        found.push((operator, term))?;
        rest = after;
    }
    Ok((List::from_vec(found), rest))
}

/// Terms joined by UNION and EXCEPT.
#[cycle(query)]
pub fn query(alloc: Global, tokens: &[Token]) -> Result<(Query, &[Token]), Unread>
    ensures ok { IfOk result (λ p. Reads IsQuery EndsQuery (said tokens.now) p.0 (said p.1.now)) }
    ensures none { IfErr result (λ e. e ≢ unread.Memory → Never IsQuery EndsQuery (said tokens.now)) }
{
    let (first, rest) = query_term(alloc, tokens)?;
    match query_terms(alloc, rest) {
        Ok((terms, rest)) => Ok((Query { first, rest: terms }, rest)),
        Err(unread) => {
            drop(first);
            Err(unread)
        }
    }
}

/// A query in parentheses.
pub fn enclosed(alloc: Global, tokens: &[Token]) -> Result<(Query, &[Token]), Unread>
    ensures ok { IfOk result (λ p. Reads IsEnclosed EndsAnyhow (said tokens.now) p.0 (said p.1.now)) }
    ensures none { IfErr result (λ e. e ≢ unread.Memory → Never IsEnclosed EndsAnyhow (said tokens.now)) }
{
    let tail = expect_symbol(tokens, Symbol::LeftParen)?;
    let (found, rest) = query(alloc, tail)?;
    let Some(tail) = behind_symbol(rest, Symbol::RightParen) else {
        drop(found);
        return Err(Unread::NotSpelled(rest.len()));
    };
    Ok((found, tail))
}
