// What an operator reads: a stored table where it stands, or the answer to a part of a query.

ghost use Rattle.std.specs.Prelude.{◌≡◌, IfOk};

use ct_table::{CRow, CTable, RowSource, SharedTable};
use ct_word::{List, Text};
use std::alloc::{AllocError, Global};
use std::marker::Model;

/// Where the rows stand.
#[derive(Drop)]
pub(crate) enum Place {
    /// In a table of a database, which is held and not copied.
    Stored(SharedTable),
    /// In a table that answers a part of the query.
    Made(CTable),
}

/// A table that an operator reads. Contracts see it as the table.
#[derive(Drop)]
pub(crate) struct Operand {
    place: Place,
}

impl Model for Operand {
    ghost use Rattle.ct_operators.specs.declared.table.CTable.{CTable};
    ghost use Rattle.ct_algebra.specs.Operands.{table_at};

    ghost Value = { CTable };

    ghost view = { λ o. table_at o.place };
}

impl Operand {
    /// A table of a database.
    ///
    /// # Errors
    /// `AllocError` where it cannot be held once more.
    pub fn stored(table: &SharedTable) -> Result<Operand, AllocError>
        ensures { IfOk result (λ o. o ≡ table.now) }
    {
        Ok(Operand {
            place: Place::Stored(table.clone()?),
        })
    }

    /// A table that answers a part of the query.
    pub fn made(table: CTable) -> Operand
        ensures { result ≡ table }
    {
        Operand {
            place: Place::Made(table),
        }
    }

    /// The table, in a copy where it is one of a database.
    ///
    /// # Errors
    /// `AllocError` where there is no memory for the copy.
    pub fn into_table(self, alloc: Global) -> Result<CTable, AllocError>
        ensures { IfOk result (λ table. table ≡ self) }
    {
        match self.place {
            Place::Stored(table) => table.copied(alloc),
            Place::Made(table) => Ok(table),
        }
    }
}

/// The rows are read where they stand.
impl RowSource for Operand {
    ghost table = { λ o. o };

    fn columns(&self) -> &List<Text> {
        match &self.place {
            Place::Stored(table) => table.columns(),
            Place::Made(table) => table.columns(),
        }
    }

    fn len(&self) -> usize {
        match &self.place {
            Place::Stored(table) => table.len(),
            Place::Made(table) => table.len(),
        }
    }

    fn row(&self, place: usize) -> &CRow {
        match &self.place {
            Place::Stored(table) => table.row(place),
            Place::Made(table) => table.row(place),
        }
    }
}
