// Insertion of rows.

ghost use Rattle.std.specs.Prelude.{◌≡◌, ◌++◌, length, All, IfOk};
ghost use Rattle.ct_word.specs.Value.{World, same_cells};
ghost use Rattle.ct_word.specs.Sublist.{IsSublist};
ghost use Rattle.ct_query.specs.Database.{SameSet};
ghost use Rattle.ct_condition.specs.Writes.{Writes};
ghost use Rattle.ct_operators.specs.Tables.{IsRow, AreRows, value_of_rows, cells_of, firsts};
ghost use Rattle.ct_operators.specs.Terms.{TermOfRows, RowsFrom};
ghost use Rattle.ct_operators.specs.Refusals.{is_full};

use crate::error::TableError;
use crate::merging::merged;
use crate::rows::{copy_rows, names};
use crate::table::CTable;
use ct_arena::{Arena, Site};
use ct_condition::Interner;
use ct_word::CRow;
use std::alloc::Global;

/// A table with further rows. A row whose cells are those of an earlier one is merged into the first of them, by the
/// disjunction of their conditions, and rows under the word false are left out.
///
/// # Errors
/// `Full` where the log has no room for a condition, `Memory` where there is none for the rows.
pub fn insert<N: Site, I: Interner<N>>(
    alloc: Global,
    arena: &Arena<N>,
    pass: &mut I,
    table: &CTable,
    rows: &[CRow],
) -> Result<CTable, TableError>
    requires table { AreRows (I.list pass.old) (length table.now.columns) table.now.rows }
    requires rows { All (IsRow (I.list pass.old) (length table.now.columns)) rows.now }
    ensures columns { IfOk result (λ out. out.columns ≡ table.now.columns) }
    ensures rows { IfOk result (λ out. AreRows (I.list pass.new) (length table.now.columns) out.rows) }
    ensures tuples { (v : World) → IfOk result (λ out. SameSet (value_of_rows (I.list pass.new) v out.rows) (value_of_rows (I.list pass.old) v table.now.rows ++ value_of_rows (I.list pass.old) v rows.now)) }
    ensures part { IfOk result (λ out. IsSublist (cells_of (I.list pass.new) out.rows) (cells_of (I.list pass.old) table.now.rows ++ cells_of (I.list pass.old) rows.now)) }
    ensures order { IfOk result (λ out. IsSublist (cells_of (I.list pass.new) out.rows) (firsts same_cells (cells_of (I.list pass.old) table.now.rows ++ cells_of (I.list pass.old) rows.now))) }
    ensures terms { IfOk result (λ out. RowsFrom (I.list pass.new) out.rows (TermOfRows (I.list pass.old) (table.now.rows ++ rows.now))) }
    ensures writes { Writes I.list I.made I.kept I.lent N.log.cap pass.old pass.new (length rows.now) (is_full result) }
{
    // The words are within the capacity, also where memory is wanting.
    let _ = pass.words();
    let columns = names(&table.columns)?;
    let mut all = Vec::new(alloc);
    copy_rows(&mut all, table.rows.as_slice())?;
    copy_rows(&mut all, rows)?;
    merged(alloc, arena, pass, columns, all)
}
