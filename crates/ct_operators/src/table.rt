// Conditional tables.

ghost use Rattle.std.specs.Prelude.{◌≡◌, IfOk};

use crate::rows::{copy_rows, names};
use ct_word::{CRow, List, Text};
use std::alloc::{AllocError, Global};

/// A conditional table: the names of its columns, and rows of places, each under the condition at a place
/// (Imielinski and Lipski 1984, section 7).
#[derive(Drop)]
pub struct CTable {
    pub columns: List<Text>,
    pub rows: List<CRow>,
}

impl CTable {
    /// A copy of the table.
    ///
    /// # Errors
    /// `AllocError` where there is no memory for it.
    pub fn copied(&self, alloc: Global) -> Result<CTable, AllocError>
        ensures { IfOk result (λ copy. copy ≡ self.now) }
    {
        let columns = names(&self.columns)?;
        let mut rows = Vec::new(alloc);
        copy_rows(&mut rows, self.rows.as_slice())?;
        Ok(CTable {
            columns,
            rows: List::from_vec(rows),
        })
    }
}
