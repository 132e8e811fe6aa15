// Tables whose rows are listed and shared, but not found by their cells.

ghost use Rattle.std.specs.Prelude.{◌≡◌, ℕ, ◌<◌, ◌++◌, ◌∷◌, [], length, get_or, set, All, IfOk, OnOk};
ghost use Rattle.std.specs.Arc.{arc_value};
ghost use Rattle.ct_word.specs.declared.values.CRow.{CRow};
ghost use Rattle.ct_query.specs.Updates.{with_items};

use ct_operators::{CTable, names, under};
use ct_parts::Parts;
use ct_word::{CRow, List, Text};
use std::alloc::{AllocError, Global};
use std::marker::Model;
use std::sync::Arc;

/// A row that several tables may hold. Contracts see it as the row.
#[derive(Drop)]
pub struct Held {
    row: Arc<CRow, Global>,
}

impl Model for Held {
    ghost use Rattle.ct_word.specs.declared.values.CRow.{CRow};

    ghost Value = { CRow };

    ghost view = { λ h. h.row.value };
}

impl Held {
    /// A row, to be held from now on.
    pub(crate) fn new(row: Arc<CRow, Global>) -> Held
        ensures { result ≡ row.value }
    {
        Held { row }
    }

    /// The row.
    fn row(&self) -> &CRow
        ensures { result.now ≡ self.now }
    {
        &self.row
    }
}

impl Clone for Held {
    ghost is_clone = { λ a b. b ≡ a };

    fn clone(&self) -> Result<Held, AllocError> {
        Ok(Held {
            row: Arc::try_clone(&self.row)?,
        })
    }
}

/// A table whose rows are listed, and shared with its copies. Contracts see it as the table.
#[derive(Drop)]
pub struct Listed {
    columns: Arc<List<Text>, Global>,
    rows: Parts<Held>,
}

impl Model for Listed {
    ghost use Rattle.std.specs.Arc.{arc_value};
    ghost use Rattle.ct_operators.specs.declared.table.CTable.{CTable};

    ghost Value = { CTable };

    ghost view = { λ l. record { columns = arc_value l.columns; rows = l.rows } };
}

impl Listed {
    /// The table of these columns without rows.
    ///
    /// # Errors
    /// `AllocError` where there is no memory for the columns.
    pub(crate) fn make(alloc: Global, columns: &List<Text>) -> Result<Listed, AllocError>
        ensures { IfOk result (λ l. l ≡ record { columns = columns.now; rows = [] }) }
    {
        Ok(Listed {
            columns: Arc::new(alloc, names(columns)?)?,
            rows: Parts::new(alloc),
        })
    }

    /// Puts a row last.
    ///
    /// # Errors
    /// `AllocError` where there is no memory for it.
    pub(crate) fn push(&mut self, alloc: Global, row: Held) -> Result<(), AllocError>
        ensures { OnOk result (self.new ≡ record { columns = self.old.columns; rows = self.old.rows ++ row ∷ [] }) }
    {
        self.rows.push(alloc, row)
    }

    /// The names of the columns.
    pub(crate) fn columns(&self) -> &List<Text>
        ensures { result.now ≡ self.now.columns }
    {
        &self.columns
    }

    /// How many rows there are.
    pub(crate) fn len(&self) -> usize
        ensures { result ≡ length self.now.rows }
    {
        self.rows.len()
    }

    /// The row at a place, counted from 0.
    pub(crate) fn row(&self, place: usize) -> &CRow
        requires { place < length self.now.rows }
        ensures { result.now ≡ get_or self.now.rows place result.now }
    {
        self.rows.at(place).row()
    }

    /// The table, in a copy that shares nothing.
    ///
    /// # Errors
    /// `AllocError` where there is no memory for it.
    pub(crate) fn copied(&self, alloc: Global) -> Result<CTable, AllocError>
        ensures { IfOk result (λ table. table ≡ self.now) }
    {
        let mut rows = Vec::new(alloc);
        for place in 0..self.len() {
            let row = self.row(place);
            rows.push(under(row, row.cond)?)?;
        }
        Ok(CTable {
            columns: names(&self.columns)?,
            rows: List::from_vec(rows),
        })
    }

    /// The table with these rows, each in the place of another. A table that shares its rows with this one keeps them as
    /// they are.
    ///
    /// # Errors
    /// `AllocError` where there is no memory for what is not shared.
    pub(crate) fn with_rows(
        self,
        alloc: Global,
        rows: Vec<(usize, CRow)>,
    ) -> Result<Listed, AllocError>
        requires { All (λ e. e.0 < length self.rows) rows.items }
        ensures { IfOk result (λ l. l ≡ record { columns = self.columns; rows = with_items rows.items self.rows }) }
    {
        let Listed {
            columns,
            rows: mut all,
        } = self;
        for (place, row) in rows {
            let held = Held::new(Arc::new(alloc, row)?);
            all.set(alloc, place, held)?;
        }
        Ok(Listed { columns, rows: all })
    }
}

impl Clone for Listed {
    ghost is_clone = { λ a b. b ≡ a };

    fn clone(&self) -> Result<Listed, AllocError> {
        Ok(Listed {
            columns: Arc::try_clone(&self.columns)?,
            rows: self.rows.clone()?,
        })
    }
}
