// The items of a SELECT, and the tables of its FROM.

ghost use Rattle.std.specs.Prelude.{◌≡◌, ◌≢◌, ◌<◌, length, IfOk, IfErr};
ghost use Rattle.ct_parse.specs.Grammar.{said, HasName, IsItem, AreItems, HasAlias, IsTable, IsTableOn, IsJoined, AreJoined, AreTables};
ghost use Rattle.ct_parse.specs.Ends.{at_joined, EndsItem, EndsItems, EndsTable, EndsCondition, EndsJoined, EndsTables};
ghost use Rattle.ct_parse.specs.Reads.{Reads, Never};
ghost use Rattle.ct_parse.specs.declared.error.Unread.TheVariants as unread;

use crate::conditions::condition;
use crate::error::Unread;
use crate::front::{behind_symbol, behind_word, expect_word, name};
use crate::rows::{Part, more};
use crate::terms::column;
use crate::tree::{Alias, Condition, Item, Items, Joined, Table, Tables};
use ct_lex::{Symbol, Token};
use ct_word::{List, Text};
use std::alloc::Global;

/// The most tables that may stand behind the first of a FROM.
const MORE_TABLES: usize = 15;

/// The name behind AS, where AS stands in front.
fn name_behind_as(alloc: Global, tokens: &[Token]) -> Result<(Option<Text>, &[Token]), Unread>
    ensures ok { IfOk result (λ p. Reads HasName EndsItem (said tokens.now) p.0 (said p.1.now)) }
    ensures none { IfErr result (λ e. e ≢ unread.Memory → Never HasName EndsItem (said tokens.now)) }
{
    let Some(tail) = behind_word(tokens, "as") else {
        return Ok((None, tokens));
    };
    let (found, rest) = name(alloc, tail)?;
    Ok((Some(found), rest))
}

/// A column, and the name that AS gives it.
impl Part for Item {
    ghost spelled = { IsItem };

    fn read(alloc: Global, tokens: &[Token]) -> Result<(Item, &[Token]), Unread> {
        let (column, rest) = column(alloc, tokens)?;
        match name_behind_as(alloc, rest) {
            Ok((alias, rest)) => Ok((Item { column, alias }, rest)),
            Err(unread) => {
                drop(column);
                Err(unread)
            }
        }
    }
}

/// A star, or items.
pub fn items(alloc: Global, tokens: &[Token]) -> Result<(Items, &[Token]), Unread>
    ensures ok { IfOk result (λ p. Reads AreItems EndsItems (said tokens.now) p.0 (said p.1.now)) }
    ensures none { IfErr result (λ e. e ≢ unread.Memory → Never AreItems EndsItems (said tokens.now)) }
{
    if let Some(rest) = behind_symbol(tokens, Symbol::Star) {
        return Ok((Items::Star, rest));
    }
    let (first, rest) = Item::read(alloc, tokens)?;
    match more::<Item>(alloc, rest) {
        Ok((others, rest)) => Ok((Items::Listed(first, others), rest)),
        Err(unread) => {
            drop(first);
            Err(unread)
        }
    }
}

/// The alias of a table, with AS or without.
fn alias(alloc: Global, tokens: &[Token]) -> Result<(Option<Alias>, &[Token]), Unread>
    ensures ok { IfOk result (λ p. Reads HasAlias EndsTable (said tokens.now) p.0 (said p.1.now)) }
    ensures none { IfErr result (λ e. e ≢ unread.Memory → Never HasAlias EndsTable (said tokens.now)) }
{
    if let Some(tail) = behind_word(tokens, "as") {
        let (name, rest) = name(alloc, tail)?;
        return Ok((Some(Alias { has_as: true, name }), rest));
    }
    match name(alloc, tokens) {
        Ok((name, rest)) => Ok((
            Some(Alias {
                has_as: false,
                name,
            }),
            rest,
        )),
        Err(Unread::NotSpelled(_)) => Ok((None, tokens)),
        Err(Unread::Memory) => Err(Unread::Memory),
    }
}

/// A table, and its alias where it has one.
fn table(alloc: Global, tokens: &[Token]) -> Result<(Table, &[Token]), Unread>
    ensures ok { IfOk result (λ p. Reads IsTable EndsTable (said tokens.now) p.0 (said p.1.now)) }
    ensures none { IfErr result (λ e. e ≢ unread.Memory → Never IsTable EndsTable (said tokens.now)) }
{
    let (name, rest) = name(alloc, tokens)?;
    match alias(alloc, rest) {
        Ok((alias, rest)) => Ok((Table { name, alias }, rest)),
        Err(unread) => {
            drop(name);
            Err(unread)
        }
    }
}

/// A table, ON and its condition.
fn table_on(alloc: Global, tokens: &[Token]) -> Result<((Table, Condition), &[Token]), Unread>
    ensures ok { IfOk result (λ p. Reads IsTableOn EndsCondition (said tokens.now) p.0 (said p.1.now)) }
    ensures none { IfErr result (λ e. e ≢ unread.Memory → Never IsTableOn EndsCondition (said tokens.now)) }
{
    let (table, rest) = table(alloc, tokens)?;
    let Some(tail) = behind_word(rest, "on") else {
        drop(table);
        return Err(Unread::NotSpelled(rest.len()));
    };
    match condition(alloc, tail) {
        Ok((on, rest)) => Ok(((table, on), rest)),
        Err(unread) => {
            drop(table);
            Err(unread)
        }
    }
}

/// Whether a comma, JOIN or INNER stands in front.
fn begins_joined(tokens: &[Token]) -> bool
    ensures { result ≡ at_joined (said tokens.now) }
{
    behind_symbol(tokens, Symbol::Comma).is_some()
        || behind_word(tokens, "join").is_some()
        || behind_word(tokens, "inner").is_some()
}

/// A table behind a comma, or one that is joined.
fn joined(alloc: Global, tokens: &[Token]) -> Result<(Joined, &[Token]), Unread>
    ensures ok { IfOk result (λ p. Reads IsJoined EndsJoined (said tokens.now) p.0 (said p.1.now)) }
    ensures none { IfErr result (λ e. e ≢ unread.Memory → Never IsJoined EndsJoined (said tokens.now)) }
    ensures shorter { IfOk result (λ p. length (said p.1.now) < length (said tokens.now)) }
{
    if let Some(tail) = behind_symbol(tokens, Symbol::Comma) {
        let (table, rest) = table(alloc, tail)?;
        return Ok((Joined::Comma(table), rest));
    }
    if let Some(tail) = behind_word(tokens, "join") {
        let ((table, on), rest) = table_on(alloc, tail)?;
        return Ok((
            Joined::Join {
                is_inner: false,
                table,
                on,
            },
            rest,
        ));
    }
    let tail = expect_word(tokens, "inner")?;
    let tail = expect_word(tail, "join")?;
    let ((table, on), rest) = table_on(alloc, tail)?;
    Ok((
        Joined::Join {
            is_inner: true,
            table,
            on,
        },
        rest,
    ))
}

/// Each table behind the first.
fn more_joined(alloc: Global, tokens: &[Token]) -> Result<(List<Joined>, &[Token]), Unread>
    ensures ok { IfOk result (λ p. Reads AreJoined EndsTables (said tokens.now) p.0 (said p.1.now)) }
    ensures none { IfErr result (λ e. e ≢ unread.Memory → Never AreJoined EndsTables (said tokens.now)) }
{
    let mut found = Vec::new(alloc);
    let mut rest = tokens;
    while begins_joined(rest) {
        let (next, after) = joined(alloc, rest)?;
        found.push(next)?;
        rest = after;
    }
    Ok((List::from_vec(found), rest))
}

/// The tables of a FROM, at most 16.
pub fn tables(alloc: Global, tokens: &[Token]) -> Result<(Tables, &[Token]), Unread>
    ensures ok { IfOk result (λ p. Reads AreTables EndsTables (said tokens.now) p.0 (said p.1.now)) }
    ensures none { IfErr result (λ e. e ≢ unread.Memory → Never AreTables EndsTables (said tokens.now)) }
{
    let (first, rest) = table(alloc, tokens)?;
    let (others, rest) = match more_joined(alloc, rest) {
        Ok(found) => found,
        Err(unread) => {
            drop(first);
            return Err(unread);
        }
    };
    if others.len() > MORE_TABLES {
        drop(first);
        drop(others);
        return Err(Unread::NotSpelled(rest.len()));
    }
    Ok((
        Tables {
            first,
            rest: others,
        },
        rest,
    ))
}
