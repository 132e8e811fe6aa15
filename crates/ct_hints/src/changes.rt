// What to write instead of an UPDATE, or of an assertion over tables, that does not fit the grammar.

use crate::grammar::open_before;
use ct_advice::{Asserted, Part, asserted_by, is_among_at, is_symbol_at, is_word_at};
use ct_lex::{Symbol, Token};

const ALIAS: &str = "UPDATE has no alias: write the name of the table";

const OWN_TABLE: &str =
    "UPDATE sees its own table alone: a new value is a column of it, a number, a text or a null with a name";

const SET_NULL: &str =
    "NULL is not set: write a null with a name, as set a = ?x, which all these rows share";

const OWNER: &str = "a column that is set stands without its table";

const ONE_BY_ONE: &str = "columns are set one by one, as set a = 1, b = 2";

const KEY: &str = "the columns of a key stand behind its table, as assert key t (a, b)";

const QUERY: &str = "a query in parentheses is wanted here, as assert exists (select * from t)";

/// Whether a column that is set stands at a position behind SET.
fn is_set_at(tokens: &[Token], i: usize) -> bool {
    let before = i.saturating_sub(1);
    is_word_at(tokens, before, "set") || is_symbol_at(tokens, before, Symbol::Comma)
}

/// Whether a query within parentheses begins at a position or shortly behind it.
fn has_query(tokens: &[Token], start: usize) -> bool {
    for i in start..start.saturating_add(4) {
        let is_query = is_symbol_at(tokens, i, Symbol::LeftParen)
            && is_word_at(tokens, i.saturating_add(1), "select");
        if is_query {
            return true;
        }
    }
    false
}

/// What is said behind SET.
fn of_sets(tokens: &[Token], before: usize, stop: usize) -> Option<&'static str> {
    if is_symbol_at(tokens, before, Symbol::Equal) && is_word_at(tokens, stop, "null") {
        return Some(SET_NULL);
    }
    if is_word_at(tokens, stop, "from") {
        return Some(OWN_TABLE);
    }
    if is_set_at(tokens, before) && is_symbol_at(tokens, stop, Symbol::Dot) {
        return Some(OWNER);
    }
    let is_list = is_set_at(tokens, stop) && is_symbol_at(tokens, stop, Symbol::LeftParen);
    (is_list || is_word_at(tokens, stop, "and")).then_some(ONE_BY_ONE)
}

/// What is said of an UPDATE.
fn of_update(tokens: &[Token], part: Part, before: usize, stop: usize) -> Option<&'static str> {
    let is_alias = is_word_at(tokens, 2, "as") || is_word_at(tokens, 3, "set");
    if stop == 2 && is_alias {
        return Some(ALIAS);
    }
    if stop > 2 && has_query(tokens, before) {
        return Some(OWN_TABLE);
    }
    if part == Part::Sets {
        of_sets(tokens, before, stop)
    } else {
        None
    }
}

/// What is said of an assertion over a query that stands in the parentheses which open at a position.
fn of_exists(tokens: &[Token], open: usize, stop: usize) -> Option<&'static str> {
    if stop == open || stop == open.saturating_add(1) {
        return Some(QUERY);
    }
    (open_before(tokens, stop) == 0).then_some(
        "nothing stands behind the query: write another ASSERT for more",
    )
}

/// What is said of an assertion of a key.
fn of_key(tokens: &[Token], before: usize, stop: usize) -> Option<&'static str> {
    if stop == 3 {
        return Some(KEY);
    }
    if open_before(tokens, stop) == 0 {
        return Some("nothing stands behind the columns of a key");
    }
    let is_begun = is_symbol_at(tokens, before, Symbol::LeftParen)
        || is_symbol_at(tokens, before, Symbol::Comma);
    (!is_begun).then_some("a comma or a ) is wanted here")
}

/// What is said of an assertion of a condition that may be meant for one over tables.
fn of_asserted(tokens: &[Token], stop: usize) -> Option<&'static str> {
    if stop == 2 && is_among_at(tokens, 1, &["key", "unique"]) {
        return Some(KEY);
    }
    is_word_at(tokens, stop, "exists").then_some(
        "EXISTS stands directly behind ASSERT, or behind ASSERT NOT",
    )
}

/// What to write instead of such a statement, where reading stopped at the token at `stop`, or behind the last one.
pub fn of_changes(tokens: &[Token], part: Part, stop: usize) -> Option<&'static str> {
    let before = stop.checked_sub(1)?;
    if is_word_at(tokens, 0, "update") {
        return of_update(tokens, part, before, stop);
    }
    if before == 0 || !is_word_at(tokens, 0, "assert") {
        return None;
    }
    match asserted_by(tokens) {
        Asserted::Exists => of_exists(tokens, 2, stop),
        Asserted::NotExists => of_exists(tokens, 3, stop),
        Asserted::Key => of_key(tokens, before, stop),
        Asserted::Condition => of_asserted(tokens, stop),
    }
}
