// What the grammar wants where reading stopped.

use crate::forms::stands_for_name;
use crate::words::{CASES, NULL, TRUTH};
use ct_advice::{
    Asserted, Part, asserted_by, is_among_at, is_cell_at, is_keyword_at, is_name_at, is_symbol_at,
    is_text_at, is_word_at, selects, word_at,
};
use ct_lex::{Symbol, Token};
use ct_word::Memory;
use std::alloc::Global;

/// The words that begin a statement.
pub const STARTS: [&str; 11] = [
    "select", "insert", "create", "delete", "update", "assert", "begin", "commit", "rollback",
    "possible", "certain",
];

/// The most tables of a FROM.
pub const TABLES: usize = 16;

const COMMA: &str = "is a comma missing before it?";

const FIRST: &str =
    "no statement begins with it, but with SELECT, INSERT, CREATE, DELETE, UPDATE, ASSERT, BEGIN, COMMIT, ROLLBACK, POSSIBLE or CERTAIN";

const CELL: &str = "a cell is a number, a text in single quotes, ?x or NULL";

const WHOLE: &str = "a comparison has two terms, as in a = 1 or a = 2";

const PLAIN_TEXT: &str = "a text stands without a word before it, as '2024-01-31'";

const ITEMS: &str = "name the columns, or write * for all of them";

/// Whether = or <> stands there.
pub fn is_comparison_at(tokens: &[Token], i: usize) -> bool {
    is_symbol_at(tokens, i, Symbol::Equal) || is_symbol_at(tokens, i, Symbol::Unequal)
}

/// What is said of the first words of a statement.
fn of_first(tokens: &[Token], stop: usize) -> Option<&'static str> {
    match (word_at(tokens, 0), stop) {
        ("delete", 1) => Some("write delete from t, or delete from t where .."),
        ("insert", 1) => Some("write insert into t values (..)"),
        ("insert", 3) => Some("VALUES or a query is wanted here"),
        ("insert", 4) if is_symbol_at(tokens, 3, Symbol::LeftParen) => {
            Some("is VALUES missing before the row?")
        }
        ("update", 1) => Some("write update t set a = 1, or update t set a = 1 where .."),
        ("update", 2) => Some("SET is wanted here, as update t set a = 1"),
        ("create", 3) => Some("the columns stand in parentheses, as create table t (a, b)"),
        ("possible" | "certain", 1) => Some("a query is wanted here, as select * from t"),
        _ => None,
    }
}

/// What is said within a row of an insertion.
fn of_cell(tokens: &[Token], before: usize, stop: usize) -> Option<&'static str> {
    let is_begun = is_symbol_at(tokens, before, Symbol::LeftParen)
        || is_symbol_at(tokens, before, Symbol::Comma);
    if is_begun {
        let behind = stop.saturating_add(1);
        return Some(match word_at(tokens, stop) {
            "true" | "false" => TRUTH,
            "" => CELL,
            _ if is_symbol_at(tokens, behind, Symbol::LeftParen) => CASES,
            _ if is_text_at(tokens, behind) => PLAIN_TEXT,
            _ => CELL,
        });
    }
    if is_cell_at(tokens, stop) || is_word_at(tokens, stop, "null") {
        return Some(COMMA);
    }
    if stop < tokens.len() {
        return Some("a comma or a ) is wanted here");
    }
    None
}

/// What is said of the rows of an insertion.
fn of_rows(tokens: &[Token], before: usize, stop: usize, open: usize) -> Option<&'static str> {
    if before < 3 {
        return None;
    }
    if open > 0 {
        return of_cell(tokens, before, stop);
    }
    if before == 3 || is_symbol_at(tokens, before, Symbol::Comma) {
        return Some("each row stands in parentheses");
    }
    if is_among_at(tokens, stop, &["where", "when"]) {
        return Some("the condition of a row stands behind IF");
    }
    let is_row = is_cell_at(tokens, stop) || is_symbol_at(tokens, stop, Symbol::LeftParen);
    is_row.then_some(COMMA)
}

/// What is said where an item of a SELECT has to begin.
fn of_item(tokens: &[Token], stop: usize) -> Option<&'static str> {
    let has_end = is_word_at(tokens, stop, "from") && !stands_for_name(tokens, stop);
    if stop >= tokens.len() || has_end {
        return Some(ITEMS);
    }
    if is_symbol_at(tokens, stop, Symbol::LeftParen) {
        return Some("a column stands without parentheses");
    }
    if is_symbol_at(tokens, stop, Symbol::Star) {
        return Some("* stands alone");
    }
    None
}

/// What is said behind an item of a SELECT.
fn behind_item(tokens: &[Token], before: usize, stop: usize) -> &'static str {
    let is_star = is_symbol_at(tokens, before, Symbol::Star);
    if is_star && is_symbol_at(tokens, stop, Symbol::Comma) {
        return "* stands alone";
    }
    if is_symbol_at(tokens, stop, Symbol::Star) {
        return "nothing is computed";
    }
    if is_comparison_at(tokens, stop) {
        return "a comparison stands behind WHERE";
    }
    let is_end = stop >= tokens.len() || is_among_at(tokens, stop, &["where", "join", "union"]);
    if is_star || is_end {
        return "FROM is wanted here";
    }
    "FROM, AS or a comma is wanted here"
}

/// What is said behind the name of a table.
fn behind_table(tokens: &[Token], stop: usize) -> &'static str {
    if is_comparison_at(tokens, stop) || is_comparison_at(tokens, stop.saturating_add(1)) {
        return "is WHERE missing before the comparison?";
    }
    if is_among_at(tokens, stop, &["if", "when"]) {
        return "a condition on rows stands behind WHERE";
    }
    if is_word_at(tokens, 0, "delete") {
        return "is WHERE or a ; missing before it?";
    }
    if is_word_at(tokens, stop, "on") {
        return "ON stands behind JOIN: write t join u on t.a = u.a, or from t, u where t.a = u.a";
    }
    "is a comma, JOIN, WHERE or a ; missing before it?"
}

/// Whether the term that ends at a position is the right side of a comparison.
fn is_compared(tokens: &[Token], i: usize) -> bool {
    let before = i.saturating_sub(1);
    let has_owner = is_symbol_at(tokens, before, Symbol::Dot);
    let before_term = if has_owner {
        i.saturating_sub(3)
    } else {
        before
    };
    is_comparison_at(tokens, before_term)
}

/// What is said in place of a comparison, or of one of its terms.
fn of_term(tokens: &[Token], before: usize, stop: usize) -> &'static str {
    if is_comparison_at(tokens, before) {
        if is_among_at(tokens, stop, &["true", "false"]) {
            return TRUTH;
        }
        return "a column, a number, a text in single quotes or ?x is wanted here";
    }
    if is_word_at(tokens, stop, "null") {
        return NULL;
    }
    if is_comparison_at(tokens, stop) {
        return WHOLE;
    }
    "a comparison is wanted here: two terms with = or <> between them"
}

/// What is said behind SET.
fn of_set(tokens: &[Token], before: usize, stop: usize) -> &'static str {
    let name = before.saturating_sub(1);
    if is_word_at(tokens, name, "set") || is_symbol_at(tokens, name, Symbol::Comma) {
        return "= is wanted here";
    }
    if is_comparison_at(tokens, before) {
        return of_term(tokens, before, stop);
    }
    "is a comma, WHERE or a ; missing before it?"
}

/// What is said behind the first term of a comparison.
fn behind_term(tokens: &[Token], before: usize, stop: usize) -> &'static str {
    let is_behind = is_among_at(tokens, before.saturating_sub(1), &["and", "or"]);
    if is_behind && is_cell_at(tokens, before) {
        return WHOLE;
    }
    if is_symbol_at(tokens, stop, Symbol::Comma) {
        return "columns are compared one by one, as a = 1 and b = 2";
    }
    "= or <> is wanted here"
}

/// What is said behind a comparison.
fn behind_comparison(tokens: &[Token], before: usize, stop: usize) -> &'static str {
    if is_symbol_at(tokens, stop, Symbol::Comma) {
        return "AND or OR stands between comparisons";
    }
    if is_comparison_at(tokens, stop) {
        return "a comparison has two terms, as in a = b and b = c";
    }
    if is_text_at(tokens, stop) && !word_at(tokens, before).is_empty() {
        return PLAIN_TEXT;
    }
    if is_word_at(tokens, 0, "assert") && is_among_at(tokens, stop, &["if", "implies"]) {
        return "write assert ?x = 1 or not ?y = 2 for ?x = 1 if ?y = 2";
    }
    if is_word_at(tokens, stop, "where") {
        return "write AND for a second WHERE";
    }
    "is AND, OR or a ; missing before it?"
}

/// What is said within a condition.
fn of_condition(tokens: &[Token], before: usize, stop: usize) -> &'static str {
    let begins = ["where", "on", "assert", "if", "and", "or", "not"];
    let is_begun = is_among_at(tokens, before, &begins)
        || is_symbol_at(tokens, before, Symbol::LeftParen);
    if is_begun || is_comparison_at(tokens, before) {
        return of_term(tokens, before, stop);
    }
    let is_whole = is_symbol_at(tokens, before, Symbol::RightParen)
        || is_among_at(tokens, before, &["true", "false"]);
    if is_whole || is_compared(tokens, before) {
        behind_comparison(tokens, before, stop)
    } else {
        behind_term(tokens, before, stop)
    }
}

/// Whether a name has to stand behind the token at a position.
fn wants_name(tokens: &[Token], i: usize) -> bool {
    is_among_at(tokens, i, &["table", "into", "from", "join", "set", "as"])
        || is_symbol_at(tokens, i, Symbol::Dot)
}

/// What is said of what stands where a name has to stand, or may stand.
fn of_name(
    alloc: Global,
    tokens: &[Token],
    part: Part,
    before: usize,
    stop: usize,
) -> Result<Option<&'static str>, Memory> {
    let may_begin = is_among_at(tokens, before, &["select", "distinct"])
        || is_symbol_at(tokens, before, Symbol::Comma)
        || is_symbol_at(tokens, before, Symbol::LeftParen);
    let has_names = part == Part::Table
        || part == Part::Sets
        || is_word_at(tokens, 0, "create")
        || asserted_by(tokens) == Asserted::Key;
    let is_wanted = wants_name(tokens, before) || (may_begin && has_names);
    if (is_wanted || may_begin) && is_keyword_at(alloc, tokens, stop)? {
        return Ok(Some("a name is wanted here, and keywords are none"));
    }
    if is_wanted && is_text_at(tokens, stop) {
        return Ok(Some("a name stands without quotes"));
    }
    if part == Part::Table && is_symbol_at(tokens, stop, Symbol::LeftParen) {
        return Ok(Some("the tables of a FROM stand without parentheses"));
    }
    Ok(is_wanted.then_some("a name is wanted here"))
}

/// How many parentheses are open before a position.
pub fn open_before(tokens: &[Token], stop: usize) -> usize {
    let mut open: usize = 0;
    for i in 0..stop {
        if is_symbol_at(tokens, i, Symbol::LeftParen) {
            open = open.saturating_add(1);
        }
        if is_symbol_at(tokens, i, Symbol::RightParen) {
            open = open.saturating_sub(1);
        }
    }
    open
}

/// What is said of parentheses, where one has no other.
fn of_parentheses(tokens: &[Token], stop: usize, open: usize) -> Option<&'static str> {
    if open == 0 && is_symbol_at(tokens, stop, Symbol::RightParen) {
        return Some("there is no ( for it");
    }
    if open > 0 && stop >= tokens.len() {
        return Some("is a ) missing?");
    }
    None
}

/// Whether a FROM has too many tables before a position.
///
/// # Errors
/// `Memory` where there is none for what is looked at.
pub fn is_crowded(alloc: Global, tokens: &[Token], stop: usize) -> Result<bool, Memory> {
    let Some(read) = tokens.get(..stop) else {
        return Ok(false);
    };
    if stop <= 2 * TABLES {
        return Ok(false);
    }
    let selects = selects(alloc, read)?;
    Ok(selects.iter().any(|select| select.tables.len() > TABLES))
}

/// What is said by the part of the statement in which reading stopped.
fn of_part(
    alloc: Global,
    tokens: &[Token],
    part: Part,
    before: usize,
    stop: usize,
) -> Result<Option<&'static str>, Memory> {
    match part {
        Part::Condition => Ok(Some(of_condition(tokens, before, stop))),
        Part::Items => Ok(Some(behind_item(tokens, before, stop))),
        Part::Sets => Ok(Some(of_set(tokens, before, stop))),
        Part::Join => Ok(Some("JOIN is wanted here")),
        Part::Behind => Ok(Some("a query is wanted here, as select * from t")),
        Part::Table if is_name_at(alloc, tokens, before)? => Ok(Some(behind_table(tokens, stop))),
        _ => Ok(None),
    }
}

/// What is said where a list, a row or a statement may go on in a few ways alone.
fn of_lists(
    tokens: &[Token],
    part: Part,
    before: usize,
    stop: usize,
    open: usize,
) -> Option<&'static str> {
    if let Some(said) = of_first(tokens, stop) {
        return Some(said);
    }
    let begins_item = is_among_at(tokens, before, &["select", "distinct"])
        || is_symbol_at(tokens, before, Symbol::Comma);
    let has_rows = is_word_at(tokens, 0, "insert") && is_word_at(tokens, 3, "values");
    match part {
        Part::Items if begins_item => of_item(tokens, stop),
        Part::Before if has_rows => of_rows(tokens, before, stop, open),
        _ => None,
    }
}

/// What the grammar wants in this part, instead of the token at `stop`, at which reading stopped, or behind the last one.
///
/// # Errors
/// `Memory` where there is none for what is looked at.
pub fn by_grammar(
    alloc: Global,
    tokens: &[Token],
    part: Part,
    stop: usize,
) -> Result<Option<&'static str>, Memory> {
    let Some(before) = stop.checked_sub(1) else {
        return Ok(Some(FIRST));
    };
    let open = open_before(tokens, stop);
    let said = match of_lists(tokens, part, before, stop, open) {
        Some(said) => Some(said),
        None => of_name(alloc, tokens, part, before, stop)?,
    };
    if said.is_some() {
        return Ok(said);
    }
    if is_among_at(tokens, stop, &STARTS) {
        return Ok(Some("is a ; missing before it?"));
    }
    match of_parentheses(tokens, stop, open) {
        Some(said) => Ok(Some(said)),
        None => of_part(alloc, tokens, part, before, stop),
    }
}
