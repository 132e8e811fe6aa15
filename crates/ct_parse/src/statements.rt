// Statements at the front of tokens.

ghost use Rattle.std.specs.Prelude.{◌≡◌, ◌≢◌, ◌∷◌, codes, IfOk, IfErr, IfSome, IfNone};
ghost use Rattle.ct_lex.specs.declared.token.Lexeme.TheVariants as lexical;
ghost use Rattle.ct_parse.specs.Grammar.{said, IsAssignment, IsStatement};
ghost use Rattle.ct_parse.specs.Ends.{Fails, at_word, EndsStatement};
ghost use Rattle.ct_parse.specs.Reads.{Reads, Never};
ghost use Rattle.ct_parse.specs.declared.error.Unread.TheVariants as unread;

use crate::assertions::assertion;
use crate::error::Unread;
use crate::front::{behind_word, expect_symbol, expect_word, name};
use crate::queries::query;
use crate::rows::{Part, condition_behind, in_parentheses, more};
use crate::terms::term;
use crate::tree::{Assignment, Row, Statement};
use ct_lex::{Symbol, Token};
use ct_word::Text;
use std::alloc::Global;

/// A statement that makes a table, behind CREATE.
fn create(alloc: Global, tokens: &[Token]) -> Result<(Statement, &[Token]), Unread>
    ensures ok { IfOk result (λ p. Reads IsStatement EndsStatement (lexical.Word (codes "create") ∷ said tokens.now) p.0 (said p.1.now)) }
    ensures none { IfErr result (λ e. e ≢ unread.Memory → Never IsStatement EndsStatement (lexical.Word (codes "create") ∷ said tokens.now)) }
{
    let tail = expect_word(tokens, "table")?;
    let (name, rest) = name(alloc, tail)?;
    let ((first, others), rest) = in_parentheses::<Text>(alloc, rest)?;
    Ok((
        Statement::Create {
            name,
            first,
            rest: others,
        },
        rest,
    ))
}

/// A statement that adds rows or the rows of a query to a table, behind INSERT.
fn insert(alloc: Global, tokens: &[Token]) -> Result<(Statement, &[Token]), Unread>
    ensures ok { IfOk result (λ p. Reads IsStatement EndsStatement (lexical.Word (codes "insert") ∷ said tokens.now) p.0 (said p.1.now)) }
    ensures none { IfErr result (λ e. e ≢ unread.Memory → Never IsStatement EndsStatement (lexical.Word (codes "insert") ∷ said tokens.now)) }
{
    let tail = expect_word(tokens, "into")?;
    let (name, rest) = name(alloc, tail)?;
    let Some(tail) = behind_word(rest, "values") else {
        return match query(alloc, rest) {
            Ok((query, rest)) => Ok((Statement::InsertQuery { name, query }, rest)),
            Err(unread) => {
                drop(name);
                Err(unread)
            }
        };
    };
    let (first, rest) = Row::read(alloc, tail)?;
    let (others, rest) = match more::<Row>(alloc, rest) {
        Ok(found) => found,
        Err(unread) => {
            drop(name);
            drop(first);
            return Err(unread);
        }
    };
    let (condition, rest) = match condition_behind(alloc, rest, "if") {
        Ok(found) => found,
        Err(unread) => {
            drop(name);
            drop(first);
            drop(others);
            return Err(unread);
        }
    };
    Ok((
        Statement::InsertRows {
            name,
            first,
            rest: others,
            condition,
        },
        rest,
    ))
}

/// A statement that takes rows from a table, behind DELETE.
fn delete(alloc: Global, tokens: &[Token]) -> Result<(Statement, &[Token]), Unread>
    ensures ok { IfOk result (λ p. Reads IsStatement EndsStatement (lexical.Word (codes "delete") ∷ said tokens.now) p.0 (said p.1.now)) }
    ensures none { IfErr result (λ e. e ≢ unread.Memory → Never IsStatement EndsStatement (lexical.Word (codes "delete") ∷ said tokens.now)) }
{
    let tail = expect_word(tokens, "from")?;
    let (name, rest) = name(alloc, tail)?;
    match condition_behind(alloc, rest, "where") {
        Ok((condition, rest)) => Ok((Statement::Delete { name, condition }, rest)),
        Err(unread) => {
            drop(name);
            Err(unread)
        }
    }
}

/// A column, and the term that it is set to.
impl Part for Assignment {
    ghost spelled = { IsAssignment };

    fn read(alloc: Global, tokens: &[Token]) -> Result<(Assignment, &[Token]), Unread> {
        let (column, rest) = name(alloc, tokens)?;
        let tail = expect_symbol(rest, Symbol::Equal)?;
        match term(alloc, tail) {
            Ok((value, rest)) => Ok((Assignment { column, value }, rest)),
            Err(unread) => {
                drop(column);
                Err(unread)
            }
        }
    }
}

/// A statement that replaces rows of a table, behind UPDATE.
fn update(alloc: Global, tokens: &[Token]) -> Result<(Statement, &[Token]), Unread>
    ensures ok { IfOk result (λ p. Reads IsStatement EndsStatement (lexical.Word (codes "update") ∷ said tokens.now) p.0 (said p.1.now)) }
    ensures none { IfErr result (λ e. e ≢ unread.Memory → Never IsStatement EndsStatement (lexical.Word (codes "update") ∷ said tokens.now)) }
{
    let (name, rest) = name(alloc, tokens)?;
    let tail = expect_word(rest, "set")?;
    let (first, rest) = Assignment::read(alloc, tail)?;
    let (others, rest) = match more::<Assignment>(alloc, rest) {
        Ok(found) => found,
        Err(unread) => {
            drop(name);
            drop(first);
            return Err(unread);
        }
    };
    let (condition, rest) = match condition_behind(alloc, rest, "where") {
        Ok(found) => found,
        Err(unread) => {
            drop(name);
            drop(first);
            drop(others);
            return Err(unread);
        }
    };
    Ok((
        Statement::Update {
            name,
            first,
            rest: others,
            condition,
        },
        rest,
    ))
}

/// A statement of one word.
fn lone_word(tokens: &[Token]) -> Option<(Statement, &[Token])>
    ensures some { IfSome result (λ p. Reads IsStatement EndsStatement (said tokens.now) p.0 (said p.1.now)) }
    ensures none { IfNone result (Fails (at_word (codes "begin") (said tokens.now)) × Fails (at_word (codes "commit") (said tokens.now)) × Fails (at_word (codes "rollback") (said tokens.now))) }
{
    if let Some(rest) = behind_word(tokens, "begin") {
        return Some((Statement::Begin, rest));
    }
    if let Some(rest) = behind_word(tokens, "commit") {
        return Some((Statement::Commit, rest));
    }
    if let Some(rest) = behind_word(tokens, "rollback") {
        return Some((Statement::Rollback, rest));
    }
    None
}

/// The statement at the front of tokens.
pub fn statement(alloc: Global, tokens: &[Token]) -> Result<(Statement, &[Token]), Unread>
    ensures ok { IfOk result (λ p. Reads IsStatement EndsStatement (said tokens.now) p.0 (said p.1.now)) }
    ensures none { IfErr result (λ e. e ≢ unread.Memory → Never IsStatement EndsStatement (said tokens.now)) }
{
    if let Some(found) = lone_word(tokens) {
        return Ok(found);
    }
    if let Some(tail) = behind_word(tokens, "create") {
        return create(alloc, tail);
    }
    if let Some(tail) = behind_word(tokens, "insert") {
        return insert(alloc, tail);
    }
    if let Some(tail) = behind_word(tokens, "delete") {
        return delete(alloc, tail);
    }
    if let Some(tail) = behind_word(tokens, "update") {
        return update(alloc, tail);
    }
    if let Some(tail) = behind_word(tokens, "assert") {
        return assertion(alloc, tail);
    }
    if let Some(tail) = behind_word(tokens, "possible") {
        let (found, rest) = query(alloc, tail)?;
        return Ok((Statement::Possible(found), rest));
    }
    if let Some(tail) = behind_word(tokens, "certain") {
        let (found, rest) = query(alloc, tail)?;
        return Ok((Statement::Certain(found), rest));
    }
    let (found, rest) = query(alloc, tokens)?;
    Ok((Statement::Rows(found), rest))
}
