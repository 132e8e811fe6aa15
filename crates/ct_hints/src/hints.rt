// What to write instead of a text that is no statement.

use crate::changes::of_changes;
use crate::forms::{of_forms, stands_for_name};
use crate::grammar::{STARTS, by_grammar};
use crate::words::{
    CASES, CONFLICT, JOIN, NULL, ORDER, WITHIN_QUERY, of_first_word, of_word, part_of,
};
use ct_advice::{
    Part, is_among_at, is_cell_at, is_name_at, is_null_at, is_number_at, is_symbol_at, is_text_at,
    is_word_at, part_before, word_at,
};
use ct_lex::{Lexeme, Symbol, Token};
use ct_word::Memory;
use std::alloc::Global;

const EMPTY: &str = "there is nothing behind a comma";

const TYPES: &str = "columns have names alone: no types, keys or checks";

const QUOTE: &str =
    "is a quote missing before it, or one within a text not written twice, as 'O''Brien'?";

/// What is said of a backslash before a quote.
pub const ESCAPE: &str =
    "a backslash escapes nothing: a quote within a text is written twice, as 'O''Brien'";

const COLUMNS: &str = "a row has all cells, in the order of the columns: write no list of columns";

const TABLES: &str =
    "only tables are created, as create table t (a): there are no views and no indexes";

const PLAIN: &str = "write create table t (a), with no word before TABLE";

const AS: &str = "write AS before another name of a column, and a comma before another column";

const ASSERT: &str = "write assert ?x = 1 for what is known of a null";

const CLIENT: &str = "there are no commands of a client";

/// Where docs/SQL.md has the grammar.
pub const GRAMMAR: &str = "Grammar";

/// What to write instead, and the part of docs/SQL.md that has more.
#[derive(Clone, Copy)]
pub struct Instead {
    pub said: &'static str,
    pub part: &'static str,
}

/// What is said of an equal sign at a position.
fn of_equal(tokens: &[Token], next: usize) -> Option<&'static str> {
    if is_symbol_at(tokens, next, Symbol::Equal) {
        return Some("write = for ==");
    }
    if is_word_at(tokens, next, "null") {
        return Some(NULL);
    }
    None
}

/// What is said of a point at a position.
fn of_point(tokens: &[Token], next: usize) -> Option<&'static str> {
    if is_symbol_at(tokens, next, Symbol::Star) {
        return Some("write the columns, as t.a, t.b: * stands alone");
    }
    if is_number_at(tokens, next) {
        return Some("numbers are whole: write others as texts, everywhere");
    }
    None
}

/// What is said of symbols at a position.
fn of_symbols(tokens: &[Token], i: usize) -> Option<&'static str> {
    let next = i.saturating_add(1);
    let Lexeme::Symbol(symbol) = &tokens.get(i)?.word else {
        return None;
    };
    match symbol {
        Symbol::Equal => of_equal(tokens, next),
        Symbol::Unequal if is_word_at(tokens, next, "null") => Some(NULL),
        Symbol::Dot => of_point(tokens, next),
        Symbol::LeftParen if is_word_at(tokens, 0, "create") => None,
        Symbol::LeftParen if is_word_at(tokens, next, "select") => Some(WITHIN_QUERY),
        Symbol::Comma if is_symbol_at(tokens, next, Symbol::RightParen) => Some(EMPTY),
        Symbol::Comma if is_word_at(tokens, 0, "create") || stands_for_name(tokens, next) => None,
        Symbol::Comma if is_among_at(tokens, next, &["from", "where", "union"]) => Some(EMPTY),
        _ => None,
    }
}

fn hint_at(tokens: &[Token], i: usize) -> Option<&'static str> {
    let is_column = is_word_at(tokens, 0, "create") && i > 2 && !is_word_at(tokens, i, "as");
    match of_word(tokens, i) {
        Some(said) if !is_column => Some(said),
        _ => of_symbols(tokens, i),
    }
}

/// What is said of the token at which reading stopped, or of the one before it.
fn near(tokens: &[Token], stop: usize) -> Option<&'static str> {
    let before = stop.checked_sub(1)?;
    if stop >= tokens.len() && is_symbol_at(tokens, before, Symbol::Comma) {
        return Some(EMPTY);
    }
    match hint_at(tokens, before) {
        Some(said) => Some(said),
        None => hint_at(tokens, stop),
    }
}

/// Whether a join that begins shortly before a position has no ON up to there.
fn lacks_on(tokens: &[Token], stop: usize) -> bool {
    for back in 1..5 {
        let Some(i) = stop.checked_sub(back) else {
            return false;
        };
        if is_word_at(tokens, i, "join") {
            return true;
        }
        if is_word_at(tokens, i, "on") {
            return false;
        }
    }
    false
}

/// Whether a text with a backslash at its end stands at a position.
fn ends_in_backslash(tokens: &[Token], i: usize) -> bool {
    match tokens.get(i) {
        Some(token) => match &token.word {
            Lexeme::Text(text) => text.as_str().as_bytes().last() == Some(&b'\\'),
            _ => false,
        },
        None => false,
    }
}

/// What is said of a word directly behind a text, as in 'O'Brien'.
fn of_quote(tokens: &[Token], stop: usize) -> Option<&'static str> {
    let before = stop.checked_sub(1)?;
    let is_cut = is_text_at(tokens, before) && !word_at(tokens, stop).is_empty();
    let is_near = tokens.get(before)?.end == tokens.get(stop)?.start;
    let said = if ends_in_backslash(tokens, before) {
        ESCAPE
    } else {
        QUOTE
    };
    (is_cut && is_near).then_some(said)
}

/// What is said of what stands behind the name of a column that is created, or behind the columns.
fn of_types(tokens: &[Token], stop: usize) -> Option<&'static str> {
    let before = stop.checked_sub(1)?;
    if !is_word_at(tokens, 0, "create") || stop <= 3 || stop >= tokens.len() {
        return None;
    }
    if is_symbol_at(tokens, before, Symbol::RightParen) {
        return Some("nothing stands behind the columns");
    }
    let is_more = !word_at(tokens, stop).is_empty()
        || is_cell_at(tokens, stop)
        || is_symbol_at(tokens, stop, Symbol::LeftParen);
    (!word_at(tokens, before).is_empty() && is_more).then_some(TYPES)
}

/// What is said of what stands behind a name.
fn behind_name(
    alloc: Global,
    tokens: &[Token],
    part: Part,
    stop: usize,
) -> Result<Option<&'static str>, Memory> {
    let Some(before) = stop.checked_sub(1) else {
        return Ok(None);
    };
    if !is_name_at(alloc, tokens, before)? {
        return Ok(None);
    }
    if is_symbol_at(tokens, stop, Symbol::LeftParen) {
        return Ok(Some(CASES));
    }
    if part != Part::Items || !is_text_at(tokens, stop) && !is_name_at(alloc, tokens, stop)? {
        return Ok(None);
    }
    let behind = stop.saturating_add(1);
    let is_item = is_word_at(tokens, behind, "from") || is_symbol_at(tokens, behind, Symbol::Comma);
    Ok(is_item.then_some(AS))
}

/// What is said of a number, a text or a null among the items of a SELECT.
fn of_items(tokens: &[Token], part: Part, stop: usize) -> Option<&'static str> {
    let before = stop.checked_sub(1)?;
    let begins_item = is_among_at(tokens, before, &["select", "distinct"])
        || is_symbol_at(tokens, before, Symbol::Comma);
    let is_value = is_cell_at(tokens, stop) || is_word_at(tokens, stop, "null");
    (part == Part::Items && begins_item && is_value).then_some(
        "an item is a column: put values into a table of their own",
    )
}

/// What is said of a creation of something else than a table, or of a table with a word before it.
fn of_creation(tokens: &[Token]) -> Option<&'static str> {
    if !is_word_at(tokens, 0, "create") || is_word_at(tokens, 1, "table") {
        return None;
    }
    let is_table = is_word_at(tokens, 2, "table") || is_word_at(tokens, 3, "table");
    Some(if is_table { PLAIN } else { TABLES })
}

/// What is said by the first words of a text.
fn by_first(tokens: &[Token]) -> Option<&'static str> {
    let is_insertion = is_word_at(tokens, 0, "insert");
    let lists_columns = is_insertion
        && is_word_at(tokens, 1, "into")
        && is_symbol_at(tokens, 3, Symbol::LeftParen)
        && !is_among_at(tokens, 4, &["", "select", "null"]);
    if lists_columns {
        return Some(COLUMNS);
    }
    if is_insertion && is_among_at(tokens, 1, &["or", "ignore"]) {
        return Some(CONFLICT);
    }
    if is_null_at(tokens, 0) || (is_null_at(tokens, 1) && is_among_at(tokens, 0, &["let", "set"])) {
        return Some(ASSERT);
    }
    if is_symbol_at(tokens, 0, Symbol::Dot) {
        return Some(CLIENT);
    }
    let is_two = is_among_at(tokens, 0, &["begin", "commit", "rollback"])
        && is_among_at(tokens, 1, &STARTS);
    if is_two {
        None
    } else {
        of_creation(tokens).or(of_first_word(tokens))
    }
}

/// What to write instead of tokens that spell no statement, where they are a form that is not there. Reading stopped at the
/// token at `stop`, or behind the last one.
///
/// # Errors
/// `Memory` where there is none for what is looked at.
fn form_of(
    alloc: Global,
    tokens: &[Token],
    part: Part,
    stop: usize,
) -> Result<Option<&'static str>, Memory> {
    let first = of_quote(tokens, stop)
        .or(by_first(tokens))
        .or(of_changes(tokens, part, stop));
    let form = match first {
        Some(said) => Some(said),
        None => of_forms(alloc, tokens, part, stop)?,
    };
    let form = form
        .or(near(tokens, stop))
        .or(of_types(tokens, stop))
        .or(of_items(tokens, part, stop));
    match form {
        Some(said) => Ok(Some(said)),
        None => behind_name(alloc, tokens, part, stop),
    }
}

/// What to write instead of tokens that spell no statement, where that is known. Reading stopped at the token at `stop`, or
/// behind the last one.
///
/// # Errors
/// `Memory` where there is none for what is looked at.
pub fn instead_of(alloc: Global, tokens: &[Token], stop: usize) -> Result<Option<Instead>, Memory> {
    let part = part_before(tokens, stop);
    let form = form_of(alloc, tokens, part, stop)?;
    if let Some(said) = form.or(lacks_on(tokens, stop).then_some(JOIN)) {
        return Ok(Some(Instead {
            said,
            part: part_of(said),
        }));
    }
    let said = by_grammar(alloc, tokens, part, stop)?;
    Ok(said.map(|said| Instead {
        said,
        part: GRAMMAR,
    }))
}

/// What is said of a character that begins no token.
pub fn stray(c: char) -> &'static str {
    match c {
        '<' | '>' => ORDER,
        '"' | '`' | '[' | ']' =>
            "a name stands without quotes, and has letters, digits and _ of ASCII; a text stands in single quotes",
        '\\' => "there are no escapes, and no commands of a client",
        '/' => "a comment is -- up to the end of the line, and nothing is computed",
        '&' => "write AND for &&; nothing is computed",
        '|' =>
            "nothing is computed, and texts are not put together; write OR where one of two conditions is enough",
        '+' | '%' | '^' => "nothing is computed",
        '~' => "nothing is computed, and there are no patterns",
        '-' => "nothing is computed; a minus stands directly before its number",
        '‘' | '’' | '“' | '”' | '´' => "a text stands in straight single quotes, as 'Rome'",
        '\u{a0}' => "it is a blank that is not of ASCII: write an ordinary one",
        '?' => "a null that has a name is ? and a word, as ?x, and one without is NULL in a row",
        '!' => "write <> or !=, and NOT before a condition",
        '#' => "a comment is -- up to the end of the line",
        ':' | '@' | '$' | '{' | '}' =>
            "there are no parameters and no casts; a null that has a name is ? and a word, as ?x",
        '\u{feff}' =>
            "a byte order mark stands before the first statement: save the file without it",
        '\0'..='\x1f' | '\x7f' => "control characters stand in texts and comments alone",
        _ => "outside of texts and comments there are only characters of ASCII",
    }
}
