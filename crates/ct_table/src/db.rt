// The tables of a database, each shared.

ghost use Rattle.std.specs.Prelude.{◌≡◌, List, [], map, Some, None, IfOk, OnOk, OnErr, MatchOption, MatchResult};
ghost use Rattle.ct_query.specs.Reads.{tables_of};
ghost use Rattle.ct_query.specs.Size.{rows_in, size};
ghost use Rattle.ct_query.specs.Views.{query_of};
ghost use Rattle.ct_table.specs.Denotes.{TableView, heading_of, find_table, with_table};
ghost use Rattle.ct_table.specs.Shared.{view_of, entry_of};
ghost use Rattle.ct_table.specs.Pending.{FitsGrowth, after, turn_of};
ghost use Rattle.ct_table.specs.Counting.{count_at, count_of};

use crate::counting::add_counts;
use crate::pending::{Growth, Pending, PendingRows, PendingTable};
use crate::sharing::SharedTable;
use ct_headings::Headings;
use ct_operators::CTable;
use ct_query::{Counts, Heading, Query, Schema};
use ct_word::{List, Memory, Text};
use indexmap::IndexMap;
use std::alloc::{AllocError, Global};
use std::marker::Model;

/// Tables by their names, in the order of their creation. Contracts see them as that list. Each table is shared with
/// the databases that were made from this one. The names and columns stand here a second time, so that they can be
/// lent together.
#[derive(Drop)]
pub struct Db {
    pub(crate) tables: IndexMap<Text, SharedTable>,
    pub(crate) headings: Schema,
}

impl Model for Db {
    ghost use Rattle.std.specs.Prelude.{◌≡◌, List, ℕ, map, nat_eq};
    ghost use Rattle.std.specs.Cmp.Lexicographic.{pointwise};
    ghost use Rattle.indexmap.specs.IndexMap.{IsUnique};
    ghost use Rattle.ct_table.specs.Denotes.{TableView, heading_of};
    ghost use Rattle.ct_table.specs.Shared.{entry_of};

    ghost Value = { List TableView };

    ghost view = { λ d. map entry_of d.tables.entries };

    ghost invariant = { λ d. IsUnique (pointwise nat_eq) d.tables × (d.headings.tables ≡ map heading_of (map entry_of d.tables.entries)) };
}

impl Db {
    /// The database without tables. It takes no memory.
    pub fn empty(alloc: Global) -> Db
        ensures { result ≡ [] }
    {
        Db {
            tables: IndexMap::new(alloc),
            headings: Schema {
                tables: List::new(alloc),
            },
        }
    }

    /// The table with this name; none where the name is not there.
    pub fn get(&self, name: &Text) -> Option<&SharedTable>
        ensures { MatchOption result (find_table self.now name.now ≡ None) (λ t. find_table self.now name.now ≡ Some (view_of name.now t.now)) }
    {
        match self.tables.get(name) {
            Some(table) => Some(table),
            None => None,
        }
    }

    /// The names and columns of the tables, without a copy.
    pub fn headings(&self) -> &Schema
        ensures { result.now.tables ≡ map heading_of self.now }
    {
        &self.headings
    }

    /// The names and columns of the tables.
    ///
    /// # Errors
    /// `Memory` where there is none for the copies.
    pub fn schema(&self, alloc: Global) -> Result<Schema, Memory>
        ensures { IfOk result (λ s. s.tables ≡ map heading_of self.now) }
    {
        let mut headings = Vec::new(alloc);
        for (name, table) in self.tables.iter() {
            headings.push(heading(name, table)?)?;
        }
        Ok(Schema {
            tables: List::from_vec(headings),
        })
    }

    /// The numbers of rows and columns of the tables that a query names, one for each time that it names a table, and 0 of
    /// both for a name that is not there. By them the query has the size that it has by those of all tables.
    ///
    /// # Errors
    /// `Memory` where there is none for the copies of the names.
    pub fn counts_of(&self, alloc: Global, q: &Query) -> Result<Counts, Memory>
        ensures tables { IfOk result (λ c. c.tables ≡ map (count_at self.now) (tables_of (query_of q.now))) }
        ensures same_size { IfOk result (λ c. size (rows_in c.tables) (query_of q.now) ≡ size (rows_in (map count_of self.now)) (query_of q.now)) }
    {
        let mut counts = Vec::new(alloc);
        add_counts(&mut counts, self, q)?;
        Ok(Counts {
            tables: List::from_vec(counts),
        })
    }

    /// The same tables, in a list of their own. The tables are shared, until one of them grows.
    ///
    /// # Errors
    /// `Memory` where there is none for the list, or for the copies of the names and columns.
    pub fn copied(&self, alloc: Global) -> Result<Db, Memory>
        ensures { IfOk result (λ db. db ≡ self.now) }
    {
        Ok(Db {
            tables: self.tables.clone()?,
            headings: self.schema(alloc)?,
        })
    }

    /// The same tables with this one at its name's place, or last where the name is new. The others are shared, until
    /// one of them grows.
    ///
    /// # Errors
    /// `Memory` where there is none for the list of the tables.
    pub fn with(&self, alloc: Global, name: Text, table: CTable) -> Result<Db, Memory>
        ensures { IfOk result (λ db. db ≡ with_table self.now (view_of name table)) }
    {
        let table = SharedTable::make(alloc, table)?;
        match self
            .copied(alloc)?
            .growing(alloc, Growth::Table { name, table })
        {
            Ok(pending) => Ok(pending.done()),
            Err(_) => Err(Memory),
        }
    }

    /// Makes all that a growth needs, or a growth that can be left undone. A table gets rows in place where nobody else
    /// holds it and they have new cells. Else the new table is made beside the old one, with which it shares the parts of
    /// its rows that do not change, if the old one's rows are found by their cells and no others stand past them.
    ///
    /// # Errors
    /// The database as it was, where there is no memory.
    pub fn growing(self, alloc: Global, growth: Growth) -> Result<Pending, Db>
        requires fits { FitsGrowth self growth }
        ensures before { MatchResult result (λ p. (turn_of p).before ≡ self) (λ same. same ≡ self) }
        ensures after { IfOk result (λ p. (turn_of p).after ≡ after self growth) }
    {
        match growth {
            Growth::Table { name, table } => match PendingTable::make(self, name, table) {
                Ok(pending) => Ok(Pending::Table(pending)),
                Err(same) => Err(same),
            },
            Growth::Rows { name, puts } => match PendingRows::make(alloc, self, name, puts) {
                Ok(pending) => Ok(Pending::Rows(pending)),
                Err(same) => Err(same),
            },
        }
    }
}

/// Each table is found by its name without going along all of them.
impl Headings for Db {
    ghost use Rattle.ct_table.specs.Headed.{schema_of};

    ghost schema = { λ d. schema_of d };

    fn heading(&self, name: &Text) -> Option<&Heading> {
        match self.tables.get_index_of(name) {
            Some(place) => self.headings.tables.as_slice().get(place),
            None => None,
        }
    }
}

/// The name and the columns of a table.
pub(crate) fn heading(name: &Text, table: &SharedTable) -> Result<Heading, Memory>
    ensures { IfOk result (λ h. h ≡ heading_of (view_of name.now table.now)) }
{
    Ok(Heading {
        name: name.clone()?,
        columns: table.columns().clone()?,
    })
}
