// Growths of a database: a table that is put in, or rows that one gets. All that can fail comes first, so that what
// follows only moves.

ghost use Rattle.std.specs.Prelude.{◌≡◌, ◌<◌, ◌≤◌, [], nat_eq, map, None, Some, IsSome, MatchOption, MatchResult, IfOk, OnErr, OnOk, vec_len, vec_capacity};
ghost use Rattle.std.specs.Cmp.Lexicographic.{pointwise};
ghost use Rattle.indexmap.specs.IndexMap.{IsUnique, get, insert_entry, spare};
ghost use Rattle.ct_table.specs.Denotes.{TableView, heading_of, with_table, find_table};
ghost use Rattle.ct_table.specs.Pending.{IsApart, put_into, turn_of};
ghost use Rattle.ct_table.specs.Shared.{view_of, entry_of};

use crate::db::{Db, heading};
use crate::sharing::SharedTable;
use crate::stored::Put;
use ct_query::{Heading, Schema};
use ct_word::{List, Text};
use indexmap::IndexMap;
use std::alloc::{AllocError, Global};
use std::marker::Model;

/// How the tables of a database grow: by a table, at its name's place or last, or by conditions that the table of this
/// name gets at some cells.
#[derive(Drop)]
pub enum Growth {
    Table { name: Text, table: SharedTable },
    Rows { name: Text, puts: Vec<Put> },
}

/// A database that is about to get a table, at its name's place or last.
#[derive(Drop)]
pub struct PendingTable {
    tables: IndexMap<Text, SharedTable>,
    headings: Vec<Heading>,
    name: Text,
    table: SharedTable,
    heading: Heading,
}

impl Model for PendingTable {
    ghost use Rattle.std.specs.Prelude.{◌≡◌, ◌<◌, map, nat_eq, vec_len, vec_capacity};
    ghost use Rattle.std.specs.Cmp.Lexicographic.{pointwise};
    ghost use Rattle.indexmap.specs.IndexMap.{IsUnique, spare};
    ghost use Rattle.ct_table.specs.Denotes.{heading_of, with_table};
    ghost use Rattle.ct_table.specs.Turn.{Turn};
    ghost use Rattle.ct_table.specs.Shared.{view_of, entry_of};

    ghost Value = { Turn };

    ghost view = { λ p. record { before = map entry_of p.tables.entries; after = with_table (map entry_of p.tables.entries) (view_of p.name p.table) } };

    ghost invariant = { λ p. IsUnique (pointwise nat_eq) p.tables × (0 < spare p.tables) × (vec_len p.headings < vec_capacity p.headings)
        × (p.headings.items ≡ map heading_of (map entry_of p.tables.entries)) × (p.heading ≡ heading_of (view_of p.name p.table)) };
}

/// A database of which one table has got conditions at cells, and the table that stood at its name before.
#[derive(Drop)]
pub struct PendingRows {
    tables: IndexMap<Text, SharedTable>,
    headings: Schema,
    name: Text,
    before: SharedTable,
}

impl Model for PendingRows {
    ghost use Rattle.std.specs.Prelude.{◌≡◌, map, nat_eq, IsSome};
    ghost use Rattle.std.specs.Cmp.Lexicographic.{pointwise};
    ghost use Rattle.indexmap.specs.IndexMap.{IsUnique, get};
    ghost use Rattle.ct_table.specs.Denotes.{heading_of, with_table};
    ghost use Rattle.ct_table.specs.Turn.{Turn};
    ghost use Rattle.ct_table.specs.Shared.{view_of, entry_of};

    ghost Value = { Turn };

    ghost view = { λ p. record { before = with_table (map entry_of p.tables.entries) (view_of p.name p.before); after = map entry_of p.tables.entries } };

    ghost invariant = { λ p. IsUnique (pointwise nat_eq) p.tables × IsSome (get (pointwise nat_eq) p.tables p.name)
        × (p.headings.tables ≡ map heading_of (map entry_of p.tables.entries))
        × (p.headings.tables ≡ map heading_of (with_table (map entry_of p.tables.entries) (view_of p.name p.before))) };
}

/// A growth that is made, or for which all room is there, with its database. It is done, or left undone.
#[derive(Drop)]
pub enum Pending {
    Table(PendingTable),
    Rows(PendingRows),
}

impl PendingTable {
    /// Makes room for a table.
    ///
    /// # Errors
    /// The database as it was, where there is no memory.
    pub(crate) fn make(db: Db, name: Text, table: SharedTable) -> Result<PendingTable, Db>
        ensures before { MatchResult result (λ p. p.before ≡ db) (λ same. same ≡ db) }
        ensures after { IfOk result (λ p. p.after ≡ with_table db (view_of name table)) }
    {
        let Db {
            mut tables,
            headings,
        } = db;
        let Ok(heading) = heading(&name, &table) else {
            return Err(Db { tables, headings });
        };
        let mut headings = headings.tables.into_vec();
        if tables.reserve(1).is_err() || headings.reserve(1).is_err() {
            return Err(Db {
                tables,
                headings: schema_of(headings),
            });
        }
        Ok(PendingTable {
            tables,
            headings,
            name,
            table,
            heading,
        })
    }

    /// The database with the table.
    fn done(self) -> Db
        ensures { result ≡ self.after }
    {
        let PendingTable {
            tables,
            mut headings,
            name,
            table,
            heading,
        } = self;
        headed(&tables, &mut headings, &name, heading);
        put_back(tables, schema_of(headings), name, table)
    }

    /// The database as it was.
    fn undone(self) -> Db
        ensures { result ≡ self.before }
    {
        let PendingTable {
            tables,
            headings,
            ..
        } = self;
        Db {
            tables,
            headings: schema_of(headings),
        }
    }
}

impl PendingRows {
    /// Puts the conditions into the table of this name.
    ///
    /// # Errors
    /// The database as it was, where there is no memory.
    pub(crate) fn make(alloc: Global, db: Db, name: Text, puts: Vec<Put>) -> Result<PendingRows, Db>
        requires apart { IsApart (find_table db name) }
        ensures before { MatchResult result (λ p. p.before ≡ db) (λ same. same ≡ db) }
        ensures after { IfOk result (λ p. p.after ≡ put_into db name puts.items (find_table db name)) }
    {
        let Db {
            mut tables,
            headings,
        } = db;
        match grow_at(alloc, &mut tables, &name, puts.as_slice()) {
            Ok(before) => Ok(PendingRows {
                tables,
                headings,
                name,
                before,
            }),
            Err(_) => Err(Db { tables, headings }),
        }
    }

    /// The database with the conditions in its table.
    fn done(self) -> Db
        ensures { result ≡ self.after }
    {
        let PendingRows {
            tables,
            headings,
            ..
        } = self;
        Db { tables, headings }
    }

    /// The database as it was.
    fn undone(self) -> Db
        ensures { result ≡ self.before }
    {
        let PendingRows {
            tables,
            headings,
            name,
            before,
        } = self;
        put_back(tables, headings, name, before)
    }
}

impl Pending {
    /// The database after the growth. It takes no memory.
    pub fn done(self) -> Db
        ensures { result ≡ (turn_of self).after }
    {
        match self {
            Pending::Table(pending) => pending.done(),
            Pending::Rows(pending) => pending.done(),
        }
    }

    /// The database as it was before the growth. It takes no memory.
    pub fn undone(self) -> Db
        ensures { result ≡ (turn_of self).before }
    {
        match self {
            Pending::Table(pending) => pending.undone(),
            Pending::Rows(pending) => pending.undone(),
        }
    }
}

/// The headings of the tables. It takes no memory.
fn schema_of(headings: Vec<Heading>) -> Schema
    ensures { result.tables ≡ headings.items }
{
    Schema {
        tables: List::from_vec(headings),
    }
}

/// The headings with that of a table of this name: at its name's place, or last. It takes no memory.
fn headed(
    tables: &IndexMap<Text, SharedTable>,
    headings: &mut Vec<Heading>,
    name: &Text,
    heading: Heading,
)
    requires room { vec_len headings.old < vec_capacity headings.old }
    requires headings { headings.old.items ≡ map heading_of (map entry_of tables.now.entries) }
    ensures { (t : TableView) → t.name ≡ name.now → heading ≡ heading_of t → headings.new.items ≡ map heading_of (with_table (map entry_of tables.now.entries) t) }
{
    match tables.get_index_of(name) {
        Some(place) => headings[place] = heading,
        None => headings.push_reserved(heading),
    }
}

/// Puts conditions at their cells in the table of a name. The table as it was.
///
/// # Errors
/// `AllocError` where there is no memory; the tables are as they were.
fn grow_at(
    alloc: Global,
    tables: &mut IndexMap<Text, SharedTable>,
    name: &Text,
    puts: &[Put],
) -> Result<SharedTable, AllocError>
    requires apart { IsApart (find_table (map entry_of tables.old.entries) name.now) }
    ensures after { OnOk result (map entry_of tables.new.entries ≡ put_into (map entry_of tables.old.entries) name.now puts.now (find_table (map entry_of tables.old.entries) name.now)) }
    ensures before { IfOk result (λ before. with_table (map entry_of tables.new.entries) (view_of name.now before) ≡ map entry_of tables.old.entries) }
    ensures headings { OnOk result (map heading_of (map entry_of tables.new.entries) ≡ map heading_of (map entry_of tables.old.entries)) }
    ensures there { IsSome (get (pointwise nat_eq) tables.new name.now) }
    ensures unique { IsUnique (pointwise nat_eq) tables.new }
    ensures same { OnErr result (map entry_of tables.new.entries ≡ map entry_of tables.old.entries) }
{
    match tables.get_mut(name) {
        Some(table) => table.grow(alloc, puts),
        None => unreachable!(),
    }
}

/// The database with this table at the place of its name, or last. It takes no memory.
fn put_back(
    mut tables: IndexMap<Text, SharedTable>,
    headings: Schema,
    name: Text,
    table: SharedTable,
) -> Db
    requires room { get (pointwise nat_eq) tables name ≡ None → 0 < spare tables }
    requires headings { headings.tables ≡ map heading_of (with_table (map entry_of tables.entries) (view_of name table)) }
    ensures { result ≡ with_table (map entry_of tables.entries) (view_of name table) }
{
    drop(tables.insert(name, table));
    Db { tables, headings }
}
