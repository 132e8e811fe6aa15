// Tables whose rows are found by their cells, and which share them with their copies.

ghost use Rattle.std.specs.Prelude.{◌≡◌, ◌<◌, ◌≤◌, ◌||◌, None, Some, get_or, is_none, length, nat_eq, slice_get, take, IfOk, IsTrue, OnOk};
ghost use Rattle.std.specs.List.{list_all};
ghost use mathlib.Core.List.{IsPrefix};
ghost use Rattle.std.specs.Arc.{arc_value};
ghost use Rattle.ct_operators.specs.Merging.{rows_of};
ghost use Rattle.ct_table.specs.Growing as spec;
ghost use Rattle.ct_table.specs.Growing.{Keyed, Apart, entries_of, grown, table_with};

use ct_operators::{CTable, names, under};
use ct_rows::Rows;
use ct_word::{CRow, FALSE_PLACE, List, Text};
use std::alloc::{AllocError, Global};
use std::marker::Model;
use std::sync::Arc;

/// A condition that a table gets at some cells, as the row that the table then has. Contracts see it as the pair of both.
#[derive(Drop)]
pub struct Put {
    row: Arc<CRow, Global>,
}

impl Model for Put {
    ghost use Rattle.std.specs.Prelude.{ℕ, List};

    ghost Value = { List ℕ × ℕ };

    ghost view = { λ p. (p.row.value.cells, p.row.value.cond) };
}

impl Put {
    /// The condition at these cells.
    ///
    /// # Errors
    /// `AllocError` where there is no memory for the row.
    pub(crate) fn new(alloc: Global, cells: List<u32>, cond: u32) -> Result<Put, AllocError>
        ensures { IfOk result (λ p. p ≡ (cells, cond)) }
    {
        Ok(Put {
            row: Arc::new(alloc, CRow { cells, cond })?,
        })
    }

    /// Whether the condition is the word false.
    fn is_void(&self) -> bool
        ensures { result ≡ nat_eq self.now.1 1 }
    {
        self.row.cond == FALSE_PLACE
    }

    /// The cells.
    fn cells(&self) -> &List<u32>
        ensures { result.now ≡ self.now.0 }
    {
        &self.row.cells
    }

    /// The row, held once more.
    ///
    /// # Errors
    /// `AllocError` where it cannot be held once more.
    fn row(&self) -> Result<Arc<CRow, Global>, AllocError>
        ensures { IfOk result (λ row. (row.value.cells, row.value.cond) ≡ self.now) }
    {
        Arc::try_clone(&self.row)
    }
}

/// A table whose rows are found by their cells. Contracts see its columns, and the cells and conditions of its rows. A
/// copy shares its columns and rows, until one of them changes: then it copies the parts of the rows that it changes.
#[derive(Drop)]
pub struct Stored {
    columns: Arc<List<Text>, Global>,
    rows: Rows,
}

impl Model for Stored {
    ghost use Rattle.std.specs.Arc.{arc_value};
    ghost use Rattle.ct_table.specs.Growing.{Keyed};

    ghost Value = { Keyed };

    ghost view = { λ s. record { columns = arc_value s.columns; entries = s.rows } };
}

impl Stored {
    /// The table, with its rows to be found by their cells. Where cells stand twice, the later row's condition stands at
    /// the first place.
    ///
    /// # Errors
    /// `AllocError` where there is no memory for it.
    pub fn make(alloc: Global, table: CTable) -> Result<Stored, AllocError>
        ensures columns { IfOk result (λ s. s.columns ≡ table.columns) }
        ensures entries { Apart (entries_of table.rows) → IfOk result (λ s. s.entries ≡ entries_of table.rows) }
    {
        let CTable { columns, rows } = table;
        let mut stored = Rows::new(alloc);
        for row in rows.into_vec() {
            stored.put(alloc, Arc::new(alloc, row)?)?;
        }
        let columns = Arc::new(alloc, columns)?;
        Ok(Stored {
            columns,
            rows: stored,
        })
    }

    /// The names of the columns.
    pub(crate) fn columns(&self) -> &List<Text>
        ensures { result.now ≡ self.now.columns }
    {
        &self.columns
    }

    /// How many rows there are.
    pub(crate) fn len(&self) -> usize
        ensures { result ≡ length self.now.entries }
    {
        self.rows.len()
    }

    /// The row at a place, counted from 0.
    pub(crate) fn row(&self, place: usize) -> &CRow
        requires within { place < length self.now.entries }
        ensures { result.now ≡ get_or (rows_of self.now.entries) place result.now }
    {
        self.rows.at(place)
    }

    /// The row at a place, held once more.
    ///
    /// # Errors
    /// `AllocError` where it cannot be held once more.
    pub(crate) fn shared(&self, place: usize) -> Result<Arc<CRow, Global>, AllocError>
        requires within { place < length self.now.entries }
        ensures { IfOk result (λ row. row.value ≡ get_or (rows_of self.now.entries) place row.value) }
    {
        self.rows.shared(place)
    }

    /// The condition of the row with these cells.
    pub(crate) fn find(&self, cells: &List<u32>) -> Option<u32>
        ensures { result ≡ spec.find cells.now self.now.entries }
    {
        self.rows.find(cells)
    }

    /// The first rows of the table, in a copy that shares nothing.
    ///
    /// # Errors
    /// `AllocError` where there is no memory for it.
    pub(crate) fn copied(&self, alloc: Global, len: usize) -> Result<CTable, AllocError>
        requires within { len ≤ length self.now.entries }
        ensures { IfOk result (λ table. table ≡ table_with self.now.columns (take len self.now.entries)) }
    {
        let mut rows = Vec::new(alloc);
        for place in 0..len {
            let row = self.rows.at(place);
            rows.push(under(row, row.cond)?)?;
        }
        Ok(CTable {
            columns: names(&self.columns)?,
            rows: List::from_vec(rows),
        })
    }

    /// The table with conditions put at their cells, those that are not the word false. A table that shares its rows
    /// with this one keeps them as they are.
    ///
    /// # Errors
    /// `AllocError` where there is no memory for what is not shared.
    pub(crate) fn grown(self, alloc: Global, puts: &[Put]) -> Result<Stored, AllocError>
        ensures columns { IfOk result (λ s. s.columns ≡ self.columns) }
        ensures entries { IfOk result (λ s. s.entries ≡ grown self.entries puts.now) }
    {
        let Stored { columns, mut rows } = self;
        for put in puts {
            if put.is_void() {
                continue;
            }
            rows.put(alloc, put.row()?)?;
        }
        Ok(Stored { columns, rows })
    }

    /// Whether no row has the cells of these conditions, but for those that are the word false.
    pub(crate) fn has_none(&self, puts: &[Put]) -> bool
        ensures { result ≡ list_all (λ p. nat_eq p.1 1 || is_none (spec.find p.0 self.now.entries)) puts.now }
    {
        puts.iter()
            .all(|put| put.is_void() || self.find(put.cells()).is_none())
    }

    /// Puts conditions at their cells, those that are not the word false, in rows that stand last. Whether all are put:
    /// it stops at cells that a row has. The rows that were there stay as they were.
    ///
    /// # Errors
    /// `AllocError` where there is no memory for a row. Some rows may stand last then.
    pub(crate) fn extend(&mut self, alloc: Global, puts: &[Put]) -> Result<bool, AllocError>
        ensures columns { self.new.columns ≡ self.old.columns }
        ensures front { IsPrefix self.old.entries self.new.entries }
        ensures entries { IfOk result (λ all. IsTrue all → self.new.entries ≡ grown self.old.entries puts.now) }
    {
        for put in puts {
            if put.is_void() {
                continue;
            }
            if self.find(put.cells()).is_some() {
                return Ok(false);
            }
            self.rows.push(alloc, put.row()?)?;
        }
        Ok(true)
    }
}

impl Clone for Stored {
    ghost is_clone = { λ a b. b ≡ a };

    fn clone(&self) -> Result<Stored, AllocError> {
        Ok(Stored {
            columns: Arc::try_clone(&self.columns)?,
            rows: self.rows.clone()?,
        })
    }
}
