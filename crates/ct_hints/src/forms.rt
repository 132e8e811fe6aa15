// Forms of SQL that are not there and take more than two tokens to know, and what to write instead of them.

use crate::words::{FROM_QUERY, NOT_IN_QUERY};
use ct_advice::{
    Part, is_among_at, is_name_at, is_number_at, is_symbol_at, is_word_at, part_before, word_at,
};
use ct_lex::{Symbol, Token};
use ct_word::Memory;
use std::alloc::Global;

const IN_LIST: &str = "write a = 1 or a = 2 for IN with a list";

const IN_QUERY: &str = "write a join for IN with a query, as select t.a from t, u where t.a = u.b";

const NOT_IN_LIST: &str = "write a <> 1 and a <> 2 for NOT IN with a list";

const MINUS: &str = "write EXCEPT for MINUS";

const ALL: &str = "leave ALL out";

const ALIAS: &str = "DELETE has no alias: write the name of the table";

const SCHEMA: &str = "a table has no schema: write its name alone";

const DIGITS: &str = "numbers are whole, and written in digits: write others as texts, everywhere";

const RETURNING: &str = "there is no RETURNING: ask for the rows by a query";

const ROWS: &str = "write insert into t select .., without VALUES";

const DATE: &str = "nothing is computed, and a date is a text, as '2024-01-31'";

const OWN_TABLE: &str =
    "DELETE sees its own table alone: insert the rows to keep into another table, by a query";

const AHEAD: &str = "CERTAIN and POSSIBLE stand before the whole query, as certain select a from t";

const WITH_CONDITIONS: &str =
    "rows are inserted with their conditions: leave CERTAIN and POSSIBLE out";

/// What is said of IN or NOT IN at a position.
fn of_in(tokens: &[Token], i: usize) -> Option<&'static str> {
    let is_negated = is_word_at(tokens, i, "not");
    let at = if is_negated { i.saturating_add(1) } else { i };
    let open = at.saturating_add(1);
    if !is_word_at(tokens, at, "in") || !is_symbol_at(tokens, open, Symbol::LeftParen) {
        return None;
    }
    let has_query = is_word_at(tokens, open.saturating_add(1), "select");
    match (is_negated, has_query) {
        (false, false) => Some(IN_LIST),
        (false, true) => Some(IN_QUERY),
        (true, false) => Some(NOT_IN_LIST),
        (true, true) => Some(NOT_IN_QUERY),
    }
}

/// What is said of MINUS between two queries.
fn of_minus(tokens: &[Token], i: usize) -> Option<&'static str> {
    let next = i.saturating_add(1);
    let has_parentheses = is_symbol_at(tokens, next, Symbol::LeftParen)
        && is_word_at(tokens, next.saturating_add(1), "select");
    let has_query = is_word_at(tokens, next, "select") || has_parentheses;
    (is_word_at(tokens, i, "minus") && has_query).then_some(MINUS)
}

/// What is said of a form that begins at a position.
fn form_at(tokens: &[Token], i: usize) -> Option<&'static str> {
    of_in(tokens, i).or(of_minus(tokens, i))
}

/// What is said of SELECT ALL.
fn of_all(alloc: Global, tokens: &[Token], stop: usize) -> Result<Option<&'static str>, Memory> {
    let (Some(select), Some(all)) = (stop.checked_sub(2), stop.checked_sub(1)) else {
        return Ok(None);
    };
    if !is_word_at(tokens, select, "select") || !is_word_at(tokens, all, "all") {
        return Ok(None);
    }
    let is_item = is_symbol_at(tokens, stop, Symbol::Star) || is_name_at(alloc, tokens, stop)?;
    Ok(is_item.then_some(ALL))
}

/// What is said of an alias of the table of a DELETE.
fn of_delete(alloc: Global, tokens: &[Token], stop: usize) -> Result<Option<&'static str>, Memory> {
    if stop != 3 || !is_word_at(tokens, 0, "delete") {
        return Ok(None);
    }
    let is_last = tokens.len() == 4 || is_word_at(tokens, 4, "where");
    let is_alias = is_word_at(tokens, 3, "as") || (is_last && is_name_at(alloc, tokens, 3)?);
    Ok(is_alias.then_some(ALIAS))
}

/// What is said of a point behind a name that stands where a table has to stand, or behind another point.
fn of_schema(tokens: &[Token], part: Part, stop: usize) -> Option<&'static str> {
    let before_name = stop.checked_sub(2)?;
    let is_table = is_among_at(tokens, before_name, &["table", "into", "from", "join"])
        || (part == Part::Table && is_symbol_at(tokens, before_name, Symbol::Comma));
    let has_owner = is_table || is_symbol_at(tokens, before_name, Symbol::Dot);
    (has_owner && is_symbol_at(tokens, stop, Symbol::Dot)).then_some(SCHEMA)
}

/// What is said of a word directly behind a number, as in 1e3, or of another number, as in 2024-01-31.
fn of_digits(tokens: &[Token], stop: usize) -> Option<&'static str> {
    let before = stop.checked_sub(1)?;
    let is_near = tokens.get(before)?.end == tokens.get(stop)?.start;
    if !is_near || !is_number_at(tokens, before) {
        return None;
    }
    if is_number_at(tokens, stop) {
        return Some(DATE);
    }
    (!word_at(tokens, stop).is_empty()).then_some(DIGITS)
}

/// What is said of RETURNING at the end of a change, where it may have been read as the alias of a table.
fn of_returning(tokens: &[Token], stop: usize) -> Option<&'static str> {
    let before = stop.checked_sub(1)?;
    let is_alias = is_word_at(tokens, before, "returning")
        && before > 3
        && part_before(tokens, before) == Part::Table;
    let is_meant = is_alias || (stop >= 3 && is_word_at(tokens, stop, "returning"));
    (is_meant && is_among_at(tokens, 0, &["insert", "delete", "update"])).then_some(RETURNING)
}

/// What is said of a query in place of rows or of columns, or behind INTO.
fn of_query(tokens: &[Token], stop: usize) -> Option<&'static str> {
    let before = stop.checked_sub(1)?;
    let is_into = is_word_at(tokens, 0, "select") && is_word_at(tokens, stop, "into");
    if is_into
        || (is_word_at(tokens, 0, "create") && stop == 3 && is_word_at(tokens, 3, "select"))
    {
        return Some(FROM_QUERY);
    }
    let is_query = is_symbol_at(tokens, before, Symbol::LeftParen)
        && is_word_at(tokens, stop, "select");
    if is_query && before == 4 && is_word_at(tokens, 3, "values") {
        return Some(ROWS);
    }
    let has_items = !stands_for_name(tokens, stop) && stop.saturating_add(1) < tokens.len();
    (is_query && before == 3 && is_word_at(tokens, 0, "create") && has_items).then_some(FROM_QUERY)
}

/// What is said of a DELETE by a query or by another table.
fn of_other_table(tokens: &[Token], before: usize) -> Option<&'static str> {
    if !is_word_at(tokens, 0, "delete") || before < 2 {
        return None;
    }
    if is_symbol_at(tokens, 3, Symbol::Comma) {
        return Some(OWN_TABLE);
    }
    for i in before..before.saturating_add(4) {
        let is_query = is_symbol_at(tokens, i, Symbol::LeftParen)
            && is_word_at(tokens, i.saturating_add(1), "select");
        if is_query || is_word_at(tokens, i, "using") {
            return Some(OWN_TABLE);
        }
    }
    None
}

/// What is said of CERTAIN or POSSIBLE within a statement.
fn of_ahead(tokens: &[Token], part: Part, before: usize, stop: usize) -> Option<&'static str> {
    if !is_among_at(tokens, stop, &["certain", "possible"]) || stands_for_name(tokens, stop) {
        return None;
    }
    if is_word_at(tokens, 0, "insert") && stop == 3 {
        return Some(WITH_CONDITIONS);
    }
    let is_within = part == Part::Behind
        || is_symbol_at(tokens, before, Symbol::LeftParen)
        || is_among_at(tokens, before, &["select", "distinct", "from", "where"]);
    (part != Part::Before && is_within).then_some(AHEAD)
}

/// Whether a keyword at a position seems to stand for a name, by what stands behind it.
pub fn stands_for_name(tokens: &[Token], i: usize) -> bool {
    let next = i.saturating_add(1);
    is_symbol_at(tokens, next, Symbol::Comma)
        || is_symbol_at(tokens, next, Symbol::RightParen)
        || is_among_at(tokens, next, &["from", "as"])
}

/// What to write instead of such a form, where reading stopped at the token at `stop`, or behind the last one.
///
/// # Errors
/// `Memory` where there is none for what is looked at.
pub fn of_forms(
    alloc: Global,
    tokens: &[Token],
    part: Part,
    stop: usize,
) -> Result<Option<&'static str>, Memory> {
    let Some(before) = stop.checked_sub(1) else {
        return Ok(None);
    };
    let said = of_other_table(tokens, before)
        .or(form_at(tokens, before))
        .or(form_at(tokens, stop))
        .or(of_ahead(tokens, part, before, stop))
        .or(of_schema(tokens, part, stop))
        .or(of_digits(tokens, stop))
        .or(of_returning(tokens, stop))
        .or(of_query(tokens, stop));
    if said.is_some() {
        return Ok(said);
    }
    match of_all(alloc, tokens, stop)? {
        Some(said) => Ok(Some(said)),
        None => of_delete(alloc, tokens, stop),
    }
}
