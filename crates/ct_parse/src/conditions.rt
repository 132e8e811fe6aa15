// Conditions.

ghost use Rattle.std.specs.Prelude.{◌≡◌, ◌≢◌, ◌∷◌, List as ListValue, codes, IfOk, IfErr};
ghost use Rattle.ct_lex.specs.declared.token.Lexeme.{Lexeme};
ghost use Rattle.ct_lex.specs.declared.token.Lexeme.TheVariants as lexical;
ghost use Rattle.ct_lex.specs.declared.token.Symbol.TheVariants as symbol;
ghost use Rattle.ct_parse.specs.Grammar.{said, IsFactor, AreFactors, IsConjunction, AreConjunctions, IsCondition};
ghost use Rattle.ct_parse.specs.Ends.{Fails, at_word, EndsColumn, EndsConjunction, EndsCondition};
ghost use Rattle.ct_parse.specs.Reads.{Reads, Never};
ghost use Rattle.ct_parse.specs.declared.error.Unread.TheVariants as unread;

use crate::boxed::Boxed;
use crate::error::Unread;
use crate::front::{behind_symbol, behind_word, closed};
use crate::terms::{comparison, term};
use crate::tree::{Condition, Conjunction, Factor};
use ct_lex::{Symbol, Token};
use ct_word::List;
use std::alloc::Global;

/// TRUE, FALSE or a comparison.
fn plain_factor(alloc: Global, tokens: &[Token]) -> Result<(Factor, &[Token]), Unread>
    requires not { Fails (at_word (codes "not") (said tokens.now)) }
    requires paren { (r : ListValue Lexeme) → said tokens.now ≡ lexical.Symbol symbol.LeftParen ∷ r → ⊥ }
    ensures ok { IfOk result (λ p. Reads IsFactor EndsColumn (said tokens.now) p.0 (said p.1.now)) }
    ensures none { IfErr result (λ e. e ≢ unread.Memory → Never IsFactor EndsColumn (said tokens.now)) }
{
    if let Some(rest) = behind_word(tokens, "true") {
        return Ok((Factor::True, rest));
    }
    if let Some(rest) = behind_word(tokens, "false") {
        return Ok((Factor::False, rest));
    }
    let (left, rest) = term(alloc, tokens)?;
    let (sign, rest) = match comparison(rest) {
        Ok(found) => found,
        Err(unread) => {
            drop(left);
            return Err(unread);
        }
    };
    match term(alloc, rest) {
        Ok((right, rest)) => Ok((Factor::Compare(left, sign, right), rest)),
        Err(unread) => {
            drop(left);
            Err(unread)
        }
    }
}

/// A NOT, a condition in parentheses, TRUE, FALSE or a comparison.
#[cycle(condition)]
fn factor(alloc: Global, tokens: &[Token]) -> Result<(Factor, &[Token]), Unread>
    ensures ok { IfOk result (λ p. Reads IsFactor EndsColumn (said tokens.now) p.0 (said p.1.now)) }
    ensures none { IfErr result (λ e. e ≢ unread.Memory → Never IsFactor EndsColumn (said tokens.now)) }
{
    if let Some(tail) = behind_word(tokens, "not") {
        let (inner, rest) = factor(alloc, tail)?;
        return Ok((Factor::Not(Boxed::new(alloc, inner)?), rest));
    }
    if let Some(tail) = behind_symbol(tokens, Symbol::LeftParen) {
        let (inner, rest) = condition(alloc, tail)?;
        let (nested, rest) = closed(alloc, inner, rest)?;
        return Ok((Factor::Nested(nested), rest));
    }
    plain_factor(alloc, tokens)
}

/// Each factor behind an AND.
#[cycle(condition)]
fn factors(alloc: Global, tokens: &[Token]) -> Result<(List<Factor>, &[Token]), Unread>
    ensures ok { IfOk result (λ p. Reads AreFactors EndsConjunction (said tokens.now) p.0 (said p.1.now)) }
    ensures none { IfErr result (λ e. e ≢ unread.Memory → Never AreFactors EndsConjunction (said tokens.now)) }
{
    let mut found = Vec::new(alloc);
    let mut rest = tokens;
    while let Some(tail) = behind_word(rest, "and") {
        let (next, after) = factor(alloc, tail)?;
        found.push(next)?;
        rest = after;
    }
    Ok((List::from_vec(found), rest))
}

/// Factors joined by AND.
#[cycle(condition)]
fn conjunction(alloc: Global, tokens: &[Token]) -> Result<(Conjunction, &[Token]), Unread>
    ensures ok { IfOk result (λ p. Reads IsConjunction EndsConjunction (said tokens.now) p.0 (said p.1.now)) }
    ensures none { IfErr result (λ e. e ≢ unread.Memory → Never IsConjunction EndsConjunction (said tokens.now)) }
{
    let (first, rest) = factor(alloc, tokens)?;
    match factors(alloc, rest) {
        Ok((factors, rest)) => Ok((
            Conjunction {
                first,
                rest: factors,
            },
            rest,
        )),
        Err(unread) => {
            drop(first);
            Err(unread)
        }
    }
}

/// Each conjunction behind an OR.
#[cycle(condition)]
fn conjunctions(alloc: Global, tokens: &[Token]) -> Result<(List<Conjunction>, &[Token]), Unread>
    ensures ok { IfOk result (λ p. Reads AreConjunctions EndsCondition (said tokens.now) p.0 (said p.1.now)) }
    ensures none { IfErr result (λ e. e ≢ unread.Memory → Never AreConjunctions EndsCondition (said tokens.now)) }
{
    let mut found = Vec::new(alloc);
    let mut rest = tokens;
    while let Some(tail) = behind_word(rest, "or") {
        let (next, after) = conjunction(alloc, tail)?;
        found.push(next)?;
        rest = after;
    }
    Ok((List::from_vec(found), rest))
}

/// Conjunctions joined by OR.
#[cycle(condition)]
pub fn condition(alloc: Global, tokens: &[Token]) -> Result<(Condition, &[Token]), Unread>
    ensures ok { IfOk result (λ p. Reads IsCondition EndsCondition (said tokens.now) p.0 (said p.1.now)) }
    ensures none { IfErr result (λ e. e ≢ unread.Memory → Never IsCondition EndsCondition (said tokens.now)) }
{
    let (first, rest) = conjunction(alloc, tokens)?;
    match conjunctions(alloc, rest) {
        Ok((conjunctions, rest)) => Ok((
            Condition {
                first,
                rest: conjunctions,
            },
            rest,
        )),
        Err(unread) => {
            drop(first);
            Err(unread)
        }
    }
}
