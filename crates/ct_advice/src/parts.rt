// The names in the parts of a statement.

use crate::asserted::{Asserted, asserted_by};
use crate::tokens::{is_same, is_symbol, word};
use ct_lex::{Symbol, Token};
use ct_word::Memory;
use std::alloc::Global;

/// A table of a FROM, and the name under which it is seen.
#[derive(Clone, Copy)]
pub struct Seen<'a> {
    pub table: &'a str,
    pub name: &'a str,
}

/// A column as it is written.
#[derive(Clone, Copy)]
pub struct Mention<'a> {
    pub owner: Option<&'a str>,
    pub name: &'a str,
}

/// What one SELECT, or a statement without one, names, in the order of its text.
#[derive(Drop)]
pub struct Select<'a> {
    pub tables: Vec<Seen<'a>>,
    pub columns: Vec<Mention<'a>>,
    /// How many items there are, or none for `*`.
    pub items: Option<usize>,
}

/// Which part of the text a token stands in.
#[derive(Clone, Copy, PartialEq, Eq)]
pub enum Part {
    /// Before all others.
    Before,
    /// Behind SELECT.
    Items,
    /// Behind the AS of an item.
    ItemName,
    /// Behind FROM, JOIN or UPDATE.
    Table,
    /// Behind the name of a table.
    Alias,
    /// Behind the alias of a table, or behind INNER.
    Join,
    /// Behind SET.
    Sets,
    /// Behind WHERE, ON, ASSERT or IF.
    Condition,
    /// Behind a set operator, or behind the parentheses around a query.
    Behind,
}

/// Which part a word begins.
const PARTS: [(&str, Part); 13] = [
    ("select", Part::Items),
    ("from", Part::Table),
    ("join", Part::Table),
    ("update", Part::Table),
    ("inner", Part::Join),
    ("set", Part::Sets),
    ("on", Part::Condition),
    ("where", Part::Condition),
    ("assert", Part::Condition),
    ("if", Part::Condition),
    ("union", Part::Behind),
    ("except", Part::Behind),
    ("intersect", Part::Behind),
];

/// The words that are no names and begin no part.
const BETWEEN: [&str; 7] = ["and", "or", "not", "true", "false", "distinct", "exists"];

/// The part that a word begins, where it begins one.
fn begun_by(word: &str) -> Option<Part> {
    for (first, part) in &PARTS {
        if is_same(first, word) {
            return Some(*part);
        }
    }
    None
}

/// The part that the last word before a position begins which begins one.
pub fn part_before(tokens: &[Token], stop: usize) -> Part {
    let mut part = Part::Before;
    for token in tokens.iter().take(stop) {
        part = begun_by(word(token)).unwrap_or(part);
    }
    part
}

/// A SELECT that is being read.
#[derive(Drop)]
struct Reading<'a> {
    select: Select<'a>,
    part: Part,
    depth: usize,
    behind_dot: bool,
}

impl<'a> Reading<'a> {
    fn name_table(&mut self, name: &'a str) -> Result<(), Memory> {
        match self.part {
            Part::Table => {
                self.select.tables.push(Seen { table: name, name })?;
                self.part = Part::Alias;
            }
            _ => {
                if let Some(seen) = self.select.tables.last_mut() {
                    seen.name = name;
                }
                self.part = Part::Join;
            }
        }
        Ok(())
    }

    fn name_column(&mut self, name: &'a str) -> Result<(), Memory> {
        if !self.behind_dot {
            self.select.columns.push(Mention { owner: None, name })?;
            return Ok(());
        }
        if let Some(mention) = self.select.columns.last_mut() {
            mention.owner = Some(mention.name);
            mention.name = name;
        }
        Ok(())
    }

    /// Takes a word that is no name. Returns whether it is such a word.
    fn take_keyword(&mut self, word: &str) -> bool {
        if let Some(part) = begun_by(word) {
            self.part = part;
            return true;
        }
        if is_same(word, "as") {
            self.part = if self.part == Part::Items {
                Part::ItemName
            } else {
                Part::Alias
            };
            return true;
        }
        BETWEEN.iter().any(|between| is_same(between, word))
    }

    fn take_word(&mut self, word: &'a str) -> Result<(), Memory> {
        if self.part == Part::Behind || self.take_keyword(word) {
            return Ok(());
        }
        match self.part {
            Part::Table | Part::Alias => self.name_table(word),
            Part::Items | Part::Sets | Part::Condition => self.name_column(word),
            Part::ItemName => {
                self.part = Part::Items;
                Ok(())
            }
            _ => Ok(()),
        }
    }

    fn take_symbol(&mut self, symbol: Symbol) {
        match symbol {
            Symbol::Star if self.part == Part::Items => self.select.items = None,
            Symbol::Comma if self.part == Part::Items => {
                self.select.items = self.select.items.map(|items| items.saturating_add(1));
            }
            Symbol::Comma if self.part == Part::Alias || self.part == Part::Join => {
                self.part = Part::Table;
            }
            Symbol::Comma if self.part == Part::Condition && self.depth == 0 => {
                self.part = Part::Table;
            }
            Symbol::LeftParen => self.depth = self.depth.saturating_add(1),
            Symbol::RightParen if self.depth == 0 => self.part = Part::Behind,
            Symbol::RightParen => self.depth = self.depth.saturating_sub(1),
            _ => {}
        }
    }
}

fn read_select<'a>(alloc: Global, tokens: &'a [Token]) -> Result<Select<'a>, Memory> {
    let mut reading = Reading {
        select: Select {
            tables: Vec::new(alloc),
            columns: Vec::new(alloc),
            items: Some(1),
        },
        part: Part::Before,
        depth: 0,
        behind_dot: false,
    };
    for token in tokens {
        let name = word(token);
        if !name.is_empty() {
            reading.take_word(name)?;
        }
        if let ct_lex::Lexeme::Symbol(symbol) = &token.word {
            reading.take_symbol(*symbol);
        }
        reading.behind_dot = is_symbol(token, Symbol::Dot);
    }
    Ok(reading.select)
}

/// The table of a key, and the columns of the key.
fn read_key<'a>(alloc: Global, tokens: &'a [Token]) -> Result<Select<'a>, Memory> {
    let mut tables = Vec::new(alloc);
    let mut columns = Vec::new(alloc);
    for token in tokens.iter().skip(2) {
        let name = word(token);
        if tables.is_empty() {
            tables.push(Seen { table: name, name })?;
        } else if !name.is_empty() {
            columns.push(Mention { owner: None, name })?;
        }
    }
    Ok(Select {
        tables,
        columns,
        items: Some(1),
    })
}

/// The parts of a statement that name tables and columns: what stands before the first SELECT, and each SELECT.
///
/// # Errors
/// `Memory` where there is none for the lists.
pub fn selects<'a>(alloc: Global, tokens: &'a [Token]) -> Result<Vec<Select<'a>>, Memory> {
    let mut all = Vec::new(alloc);
    if asserted_by(tokens) == Asserted::Key {
        all.push(read_key(alloc, tokens)?)?;
        return Ok(all);
    }
    let mut start = 0;
    for (i, token) in tokens.iter().enumerate() {
        if i > start && is_same(word(token), "select") {
            if let Some(part) = tokens.get(start..i) {
                all.push(read_select(alloc, part)?)?;
            }
            start = i;
        }
    }
    if let Some(part) = tokens.get(start..) {
        all.push(read_select(alloc, part)?)?;
    }
    Ok(all)
}
