// What a history has: its tables, and which commits have asserted something of a null.

use crate::tokens::{is_same, word};
use ct_lex::tokens;
use ct_rewrite::{Change, Commit, Node};
use ct_word::{Memory, Null, Term, Text};
use indexmap::IndexMap;
use std::alloc::Global;

/// How many commits that have asserted something of a null are kept.
pub const KEPT: usize = 3;

/// A table of a history: the number of the commit that made it, its columns, and how many rows it ever had at most: those
/// that were inserted, and behind an UPDATE a new one for each that was there.
#[derive(Clone, Copy)]
pub struct Made<'a> {
    pub version: usize,
    pub columns: &'a [Text],
    pub rows: u64,
}

/// What a history has, found in one pass: its tables by their names, in the order of their commits, and by the names of
/// nulls the first commits that have asserted something and name them.
#[derive(Drop)]
pub struct Known<'a> {
    pub tables: IndexMap<&'a str, Made<'a>>,
    pub asserted: IndexMap<&'a str, Vec<usize>>,
}

/// A table that the transaction of the statement has made.
#[derive(Drop)]
pub struct Own {
    name: Text,
    columns: Vec<Text>,
}

/// What a statement could see: tables of the history up to a version, and those of its transaction.
#[derive(Clone, Copy)]
pub struct Visible<'a, 'b> {
    pub known: &'b Known<'a>,
    pub own: &'b [Own],
    pub version: usize,
}

impl<'a, 'b> Visible<'a, 'b> {
    /// The columns of a table, where there is one of this name.
    pub fn columns(&self, name: &str) -> Option<&'b [Text]> {
        for own in self.own {
            if is_same(own.name.as_str(), name) {
                return Some(own.columns.as_slice());
            }
        }
        let made = self.known.tables.get(name)?;
        if made.version <= self.version {
            Some(made.columns)
        } else {
            None
        }
    }

    /// The names of the first tables, at most this many, and whether there are more.
    ///
    /// # Errors
    /// `Memory` where there is none for the list.
    pub fn some_names(&self, alloc: Global, most: usize) -> Result<(Vec<&'b str>, bool), Memory> {
        let mut names = Vec::new(alloc);
        for (name, made) in self.known.tables.iter() {
            if made.version > self.version {
                break;
            }
            if names.len() >= most {
                return Ok((names, true));
            }
            names.push(*name)?;
        }
        for own in self.own {
            if names.len() >= most {
                return Ok((names, true));
            }
            names.push(own.name.as_str())?;
        }
        Ok((names, false))
    }
}

impl<'a> Known<'a> {
    fn take_change(&mut self, version: usize, change: &'a Change) -> Result<(), Memory> {
        match change {
            Change::Create { name, columns } => {
                let made = Made {
                    version,
                    columns: columns.as_slice(),
                    rows: 0,
                };
                self.tables.insert(name.as_str(), made)?;
            }
            Change::Insert { name, rows } => {
                if let Some(made) = self.tables.get_mut(name.as_str()) {
                    made.rows = made.rows.saturating_add(rows.len() as u64);
                }
            }
            Change::Update { name, .. } => {
                if let Some(made) = self.tables.get_mut(name.as_str()) {
                    made.rows = made.rows.saturating_mul(2);
                }
            }
            Change::Delete { .. } | Change::Assert { .. } => {}
        }
        Ok(())
    }

    /// Notes that a commit with an assertion names a null, where the term is one that has a name.
    fn take_term(&mut self, alloc: Global, version: usize, term: &'a Term) -> Result<(), Memory> {
        let Term::Null(Null::Named(name)) = term else {
            return Ok(());
        };
        let commits = self
            .asserted
            .entry(name.as_str())?
            .or_insert(Vec::new(alloc));
        if commits.len() < KEPT && commits.last() != Some(&version) {
            commits.push(version)?;
        }
        Ok(())
    }

    fn take_nodes(
        &mut self,
        alloc: Global,
        version: usize,
        nodes: &'a [Node],
    ) -> Result<(), Memory> {
        for node in nodes {
            if let Node::Eq(left, right) | Node::Ne(left, right) = node {
                self.take_term(alloc, version, left)?;
                self.take_term(alloc, version, right)?;
            }
        }
        Ok(())
    }

    fn take_commit(
        &mut self,
        alloc: Global,
        version: usize,
        commit: &'a Commit,
    ) -> Result<(), Memory> {
        let mut has_assertion = false;
        for change in commit.changes.as_slice() {
            has_assertion = has_assertion || matches!(change, Change::Assert { .. });
            self.take_change(version, change)?;
        }
        if has_assertion {
            self.take_nodes(alloc, version, commit.nodes.as_slice())?;
        }
        Ok(())
    }
}

/// What a history has.
///
/// # Errors
/// `Memory` where there is none for the lists.
pub fn known_of<'a>(alloc: Global, history: &'a [Commit]) -> Result<Known<'a>, Memory> {
    let mut known = Known {
        tables: IndexMap::new(alloc),
        asserted: IndexMap::new(alloc),
    };
    for (i, commit) in history.iter().enumerate() {
        known.take_commit(alloc, i + 1, commit)?;
    }
    Ok(known)
}

/// The table that the text of a creation makes.
///
/// # Errors
/// `Memory` where there is none for its names.
pub fn own_table(alloc: Global, text: &str) -> Result<Option<Own>, Memory> {
    let Ok(tokens) = tokens(alloc, text) else {
        return Ok(None);
    };
    let mut words = tokens.iter().map(word).filter(|word| !word.is_empty());
    if words.next() != Some("create") || words.next() != Some("table") {
        return Ok(None);
    }
    let Some(name) = words.next() else {
        return Ok(None);
    };
    let name = Text::from_str(alloc, name)?;
    let mut columns = Vec::new(alloc);
    for column in words {
        columns.push(Text::from_str(alloc, column)?)?;
    }
    Ok(Some(Own { name, columns }))
}
