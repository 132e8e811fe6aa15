// Tables whose rows are read where they stand.

ghost use Rattle.std.specs.Prelude.{◌≡◌, ◌<◌, length, get_or};

use crate::table::CTable;
use ct_word::{CRow, List, Text};

/// A conditional table, wherever its rows stand. The operators that take one read each row in its place, without a copy
/// of the table.
pub trait RowSource {
    ghost use Rattle.ct_operators.specs.declared.table.CTable.{CTable};

    /// The table.
    ghost table: { Self → CTable };

    /// The names of the columns.
    fn columns(&self) -> &List<Text>
        ensures { result.now ≡ (table self.now).columns };

    /// How many rows there are.
    fn len(&self) -> usize
        ensures { result ≡ length (table self.now).rows };

    /// The row at a place, counted from 0.
    fn row(&self, place: usize) -> &CRow
        requires { place < length (table self.now).rows }
        ensures { result.now ≡ get_or (table self.now).rows place result.now };
}

/// The rows stand in the table.
impl RowSource for CTable {
    ghost table = { λ t. t };

    fn columns(&self) -> &List<Text> {
        &self.columns
    }

    fn len(&self) -> usize {
        self.rows.len()
    }

    fn row(&self, place: usize) -> &CRow {
        &self.rows.as_slice()[place]
    }
}
