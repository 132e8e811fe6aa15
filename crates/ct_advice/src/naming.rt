// What is said of names and counts.

use crate::aliases::{BareAlias, bare_alias};
use crate::asserted::{Asserted, asserted_by};
use crate::parts::{Mention, Seen, Select, selects};
use crate::tables::Visible;
use crate::tokens::{is_same, is_symbol_at, is_word_at, word, word_at};
use ct_lex::{Symbol, Token};
use ct_word::{Memory, Text};
use indexmap::IndexSet;
use std::alloc::Global;
use std::fmt::Write;

/// How many tables or columns are listed.
const LISTED: usize = 12;

fn push_separated(out: &mut String, i: usize, name: &str) -> Result<(), Memory> {
    if i > 0 {
        out.push_str(", ")?;
    }
    out.push_str(name)?;
    Ok(())
}

fn push_table(out: &mut String, name: &str, columns: &[Text]) -> Result<(), Memory> {
    out.push_str(name)?;
    out.push_str(" (")?;
    for (i, column) in columns.iter().enumerate() {
        if i >= LISTED {
            out.push_str(", ..")?;
            break;
        }
        push_separated(out, i, column.as_str())?;
    }
    out.push_str(")")?;
    Ok(())
}

/// The table that an insertion, a deletion, an update, a creation or a key names.
fn target(tokens: &[Token]) -> Option<&str> {
    if is_word_at(tokens, 0, "update") {
        return Some(word(tokens.get(1)?));
    }
    let names = is_word_at(tokens, 0, "insert")
        || is_word_at(tokens, 0, "delete")
        || is_word_at(tokens, 0, "create")
        || asserted_by(tokens) == Asserted::Key;
    if names {
        Some(word(tokens.get(2)?))
    } else {
        None
    }
}

fn unknown_table<'a>(
    alloc: Global,
    visible: &Visible,
    tokens: &'a [Token],
) -> Result<Option<&'a str>, Memory> {
    if let Some(name) = target(tokens) {
        if visible.columns(name).is_none() {
            return Ok(Some(name));
        }
    }
    for select in &selects(alloc, tokens)? {
        for seen in &select.tables {
            if visible.columns(seen.table).is_none() {
                return Ok(Some(seen.table));
            }
        }
    }
    Ok(None)
}

/// Appends which table is not there, and which are.
///
/// # Errors
/// `Memory` where there is none for the text.
pub fn push_unknown_table(
    alloc: Global,
    out: &mut String,
    visible: &Visible,
    tokens: &[Token],
) -> Result<(), Memory> {
    match unknown_table(alloc, visible, tokens)? {
        Some(name) => write!(out, "no table {name}")?,
        None => out.push_str("a table is not there")?,
    }
    let (names, has_more) = visible.some_names(alloc, LISTED)?;
    if names.is_empty() {
        out.push_str("; there is none yet")?;
        return Ok(());
    }
    out.push_str("; there are ")?;
    for (i, name) in names.iter().enumerate() {
        push_separated(out, i, name)?;
    }
    if has_more {
        out.push_str(", ..")?;
    }
    Ok(())
}

/// Appends the table that is there already.
///
/// # Errors
/// `Memory` where there is none for the text.
pub fn push_table_exists(
    out: &mut String,
    visible: &Visible,
    tokens: &[Token],
) -> Result<(), Memory> {
    out.push_str("there is a table ")?;
    let name = target(tokens).unwrap_or("of this name");
    match visible.columns(name) {
        Some(columns) => push_table(out, name, columns),
        None => Ok(out.push_str(name)?),
    }
}

fn has_column(columns: &[Text], name: &str) -> bool {
    columns.iter().any(|column| is_same(column.as_str(), name))
}

/// Whether a table of a FROM has a column as it is written.
fn shows(visible: &Visible, seen: &Seen, mention: &Mention) -> bool {
    if let Some(owner) = mention.owner {
        if !is_same(seen.name, owner) {
            return false;
        }
    }
    match visible.columns(seen.table) {
        Some(columns) => has_column(columns, mention.name),
        None => false,
    }
}

/// How many tables of a SELECT have a column as it is written.
fn showing(visible: &Visible, select: &Select, mention: &Mention) -> usize {
    let tables = select.tables.iter();
    tables.filter(|seen| shows(visible, seen, mention)).count()
}

fn push_mention(out: &mut String, mention: &Mention) -> Result<(), Memory> {
    if let Some(owner) = mention.owner {
        write!(out, "{owner}.")?;
    }
    out.push_str(mention.name)?;
    Ok(())
}

/// Appends the tables of a FROM with their columns, as they are seen.
fn push_scope(out: &mut String, visible: &Visible, select: &Select) -> Result<(), Memory> {
    if select.tables.is_empty() {
        out.push_str(": no table is seen here, and a null is written as ?x")?;
        return Ok(());
    }
    out.push_str(" in ")?;
    for (i, seen) in select.tables.iter().enumerate() {
        if i > 0 {
            out.push_str(", ")?;
        }
        push_table(out, seen.name, visible.columns(seen.table).unwrap_or(&[]))?;
    }
    Ok(())
}

/// The name under which a table is seen that a column has before it, where that is another one.
fn alias_of<'a>(select: &Select<'a>, mention: &Mention) -> Option<&'a str> {
    let owner = mention.owner?;
    for seen in &select.tables {
        if is_same(seen.table, owner) && !is_same(seen.name, owner) {
            return Some(seen.name);
        }
    }
    None
}

/// Whether a word is compared with what stands before it.
fn is_compared(tokens: &[Token], name: &str) -> bool {
    for i in 1..tokens.len() {
        let before = i - 1;
        let is_behind = is_symbol_at(tokens, before, Symbol::Equal)
            || is_symbol_at(tokens, before, Symbol::Unequal);
        if is_behind && is_word_at(tokens, i, name) {
            return true;
        }
    }
    false
}

/// Appends what a column that is not there may be meant for.
fn push_meant(
    alloc: Global,
    out: &mut String,
    select: &Select,
    mention: &Mention,
    tokens: &[Token],
) -> Result<(), Memory> {
    if let Some(found) = bare_alias(alloc, tokens)? {
        let BareAlias {
            alias,
            table,
            said,
            ..
        } = found;
        write!(out, "; {alias} is read as the alias of {table}: {said}")?;
    } else if let Some(alias) = alias_of(select, mention) {
        let name = mention.name;
        write!(out, "; write {alias}.{name}")?;
    }
    if mention.owner.is_none() && is_compared(tokens, mention.name) {
        out.push_str("; a text stands in single quotes")?;
    }
    Ok(())
}

/// Appends which column is not there, and those that are.
///
/// # Errors
/// `Memory` where there is none for the text.
pub fn push_unknown_column(
    alloc: Global,
    out: &mut String,
    visible: &Visible,
    tokens: &[Token],
) -> Result<(), Memory> {
    for select in &selects(alloc, tokens)? {
        for mention in &select.columns {
            if showing(visible, select, mention) == 0 {
                out.push_str("no column ")?;
                push_mention(out, mention)?;
                push_scope(out, visible, select)?;
                return push_meant(alloc, out, select, mention, tokens);
            }
        }
    }
    out.push_str("a column is not there")?;
    Ok(())
}

/// Appends what a column may be.
///
/// # Errors
/// `Memory` where there is none for the text.
pub fn push_ambiguous_column(
    alloc: Global,
    out: &mut String,
    visible: &Visible,
    tokens: &[Token],
) -> Result<(), Memory> {
    for select in &selects(alloc, tokens)? {
        for mention in &select.columns {
            if mention.owner.is_none() && showing(visible, select, mention) > 1 {
                return push_owners(out, visible, select, mention);
            }
        }
    }
    out.push_str("two tables have a column: write its table before it")?;
    Ok(())
}

fn push_owners(
    out: &mut String,
    visible: &Visible,
    select: &Select,
    mention: &Mention,
) -> Result<(), Memory> {
    let name = mention.name;
    write!(out, "{name} may be ")?;
    let mut is_first = true;
    for seen in &select.tables {
        if shows(visible, seen, mention) {
            let owner = seen.name;
            let before = if is_first { "" } else { " or " };
            write!(out, "{before}{owner}.{name}")?;
            is_first = false;
        }
    }
    Ok(())
}

/// The first name that stands twice.
///
/// # Errors
/// `Memory` where there is none for those before it.
fn repeated<'a>(alloc: Global, names: &[&'a str]) -> Result<Option<&'a str>, Memory> {
    let mut before = IndexSet::new(alloc);
    for name in names {
        if !before.insert(*name)? {
            return Ok(Some(*name));
        }
    }
    Ok(None)
}

/// The columns of a creation or of a key.
fn listed_columns<'a>(alloc: Global, tokens: &'a [Token]) -> Result<Vec<&'a str>, Memory> {
    let mut names = Vec::new(alloc);
    for token in tokens.iter().skip(3) {
        let name = word(token);
        if !name.is_empty() {
            names.push(name)?;
        }
    }
    Ok(names)
}

/// The columns that an update sets.
fn set_columns<'a>(alloc: Global, tokens: &'a [Token]) -> Result<Vec<&'a str>, Memory> {
    let mut names = Vec::new(alloc);
    for i in 3..tokens.len() {
        let before = i - 1;
        if is_word_at(tokens, i, "where") {
            break;
        }
        if is_word_at(tokens, before, "set") || is_symbol_at(tokens, before, Symbol::Comma) {
            names.push(word_at(tokens, i))?;
        }
    }
    Ok(names)
}

/// Appends the column that stands twice in a creation, an update or a key. Returns whether the statement is one of these.
fn push_duplicate_column(
    alloc: Global,
    out: &mut String,
    tokens: &[Token],
) -> Result<bool, Memory> {
    if is_word_at(tokens, 0, "create") {
        let name = repeated(alloc, &listed_columns(alloc, tokens)?)?.unwrap_or("the name");
        write!(out, "two columns are named {name}")?;
    } else if is_word_at(tokens, 0, "update") {
        let name = repeated(alloc, &set_columns(alloc, tokens)?)?.unwrap_or("a column");
        write!(out, "{name} is set twice")?;
    } else if asserted_by(tokens) == Asserted::Key {
        let name = repeated(alloc, &listed_columns(alloc, tokens)?)?.unwrap_or("a column");
        write!(out, "{name} stands twice in the key")?;
    } else {
        return Ok(false);
    }
    Ok(true)
}

/// Appends the name that stands twice.
///
/// # Errors
/// `Memory` where there is none for the text.
pub fn push_duplicate_name(
    alloc: Global,
    out: &mut String,
    tokens: &[Token],
) -> Result<(), Memory> {
    if push_duplicate_column(alloc, out, tokens)? {
        return Ok(());
    }
    for select in &selects(alloc, tokens)? {
        let mut names = Vec::new(alloc);
        for seen in &select.tables {
            names.push(seen.name)?;
        }
        if let Some(name) = repeated(alloc, &names)? {
            write!(
                out,
                "two tables are seen as {name}: write {name} as p, {name} as q"
            )?;
            return Ok(());
        }
    }
    out.push_str("two tables are seen under one name: give one an alias")?;
    Ok(())
}

/// What a number of columns or cells is called.
fn called(count: usize, one: &'static str, more: &'static str) -> &'static str {
    if count == 1 { one } else { more }
}

/// How many columns a SELECT has, where its tables are there.
fn width(visible: &Visible, select: &Select) -> Option<usize> {
    if let Some(items) = select.items {
        return Some(items);
    }
    let mut all: usize = 0;
    for seen in &select.tables {
        all = all.saturating_add(visible.columns(seen.table)?.len());
    }
    Some(all)
}

/// The first row of an insertion that has another number of cells than this: its number, and its cells.
fn odd_row(tokens: &[Token], columns: usize) -> Option<(usize, usize)> {
    let mut row: usize = 0;
    let mut cells: usize = 0;
    for i in 4..tokens.len() {
        if is_symbol_at(tokens, i, Symbol::LeftParen) {
            row = row.saturating_add(1);
            cells = 1;
        } else if is_symbol_at(tokens, i, Symbol::Comma) {
            cells = cells.saturating_add(1);
        } else if is_symbol_at(tokens, i, Symbol::RightParen) && cells != columns {
            return Some((row, cells));
        }
    }
    None
}

fn push_insertion_counts(
    out: &mut String,
    visible: &Visible,
    tokens: &[Token],
    widths: &[usize],
) -> Result<(), Memory> {
    let name = target(tokens).unwrap_or("the table");
    let columns = visible.columns(name).unwrap_or(&[]);
    let wanted = columns.len();
    let wanted_as = called(wanted, "column", "columns");
    if is_word_at(tokens, 3, "values") {
        let (row, given) = odd_row(tokens, wanted).unwrap_or((1, 0));
        let given_as = called(given, "cell", "cells");
        write!(
            out,
            "row {row} has {given} {given_as}, for {wanted} {wanted_as} of "
        )?;
    } else {
        let given = widths.first().copied().unwrap_or(0);
        let given_as = called(given, "column", "columns");
        write!(
            out,
            "the query has {given} {given_as}, for {wanted} {wanted_as} of "
        )?;
    }
    push_table(out, name, columns)
}

/// Appends the two numbers of columns.
///
/// # Errors
/// `Memory` where there is none for the text.
pub fn push_column_count(
    alloc: Global,
    out: &mut String,
    visible: &Visible,
    tokens: &[Token],
) -> Result<(), Memory> {
    let mut widths = Vec::new(alloc);
    for select in &selects(alloc, tokens)? {
        let is_query = !select.tables.is_empty();
        if let (true, Some(width)) = (is_query, width(visible, select)) {
            widths.push(width)?;
        }
    }
    let first = widths.first().copied().unwrap_or(0);
    for other in &widths {
        if *other != first {
            let first_as = called(first, "column", "columns");
            write!(
                out,
                "one side has {first} {first_as}, and another has {other}"
            )?;
            return Ok(());
        }
    }
    push_insertion_counts(out, visible, tokens, &widths)
}
