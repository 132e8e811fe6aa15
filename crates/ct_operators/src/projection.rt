// Projection to some of the columns.

ghost use Rattle.std.specs.Prelude.{◌≡◌, ◌<◌, [], length, map, slice_index_or, All, IfOk};
ghost use Rattle.ct_word.specs.Value.{World, same_cells, cell_at};
ghost use Rattle.ct_word.specs.Sublist.{IsSublist};
ghost use Rattle.ct_query.specs.Database.{SameSet};
ghost use Rattle.ct_query.specs.Patterns.{picked};
ghost use Rattle.ct_condition.specs.Writes.{Writes};
ghost use Rattle.ct_operators.specs.Tables.{AreRows, value_of_rows, cells_of, firsts};
ghost use Rattle.ct_operators.specs.Projection.{picked_row};
ghost use Rattle.ct_operators.specs.Terms.{TermOfRows, RowsFrom};
ghost use Rattle.ct_operators.specs.Refusals.{is_full};

use crate::error::TableError;
use crate::merging::merged;
use crate::source::RowSource;
use crate::table::CTable;
use ct_arena::{Arena, Site};
use ct_condition::Interner;
use ct_word::{CRow, List, Text};
use std::alloc::{AllocError, Global};

/// The cells of a row at these positions, under the row's condition.
///
/// # Errors
/// `AllocError` where there is no memory for the row.
pub fn pick(alloc: Global, columns: &[u32], row: &CRow) -> Result<CRow, AllocError>
    requires { All (λ k. k < length row.now.cells) columns.now }
    ensures { IfOk result (λ r. r ≡ picked_row columns.now row.now) }
{
    let mut cells = Vec::new(alloc);
    for column in columns {
        cells.push(row.cells.as_slice()[*column as usize])?;
    }
    Ok(CRow {
        cells: List::from_vec(cells),
        cond: row.cond,
    })
}

/// The rows with these of their cells.
fn pick_each<T: RowSource>(
    alloc: Global,
    columns: &[u32],
    table: &T,
) -> Result<Vec<CRow>, AllocError>
    requires { All (λ r. All (λ k. k < length r.cells) columns.now) (T.table table.now).rows }
    ensures { IfOk result (λ out. out.items ≡ map (picked_row columns.now) (T.table table.now).rows) }
{
    let mut out = Vec::new(alloc);
    for nth in 0..table.len() {
        out.push(pick(alloc, columns, table.row(nth))?)?;
    }
    Ok(out)
}

/// The names at these positions.
fn pick_names(alloc: Global, columns: &[u32], names: &List<Text>) -> Result<List<Text>, AllocError>
    requires { All (λ k. k < length names.now) columns.now }
    ensures { IfOk result (λ out. out ≡ map (λ k. slice_index_or names.now k []) columns.now) }
{
    let mut out = Vec::new(alloc);
    for column in columns {
        out.push(names.as_slice()[*column as usize].clone()?)?;
    }
    Ok(List::from_vec(out))
}

/// The columns at these positions, in this order. Rows that no longer differ are merged into the first of them.
///
/// # Errors
/// `Full` where the log has no room for a condition, `Memory` where there is none for the rows.
pub fn project<N: Site, I: Interner<N>, T: RowSource>(
    alloc: Global,
    arena: &Arena<N>,
    pass: &mut I,
    columns: &[u32],
    table: &T,
) -> Result<CTable, TableError>
    requires rows { AreRows (I.list pass.old) (length (T.table table.now).columns) (T.table table.now).rows }
    requires columns { All (λ k. k < length (T.table table.now).columns) columns.now }
    ensures columns { IfOk result (λ out. out.columns ≡ map (λ k. slice_index_or (T.table table.now).columns k []) columns.now) }
    ensures rows { IfOk result (λ out. AreRows (I.list pass.new) (length columns.now) out.rows) }
    ensures tuples { (v : World) → IfOk result (λ out. SameSet (value_of_rows (I.list pass.new) v out.rows) (map (λ t. map (cell_at t) columns.now) (value_of_rows (I.list pass.old) v (T.table table.now).rows))) }
    ensures part { IfOk result (λ out. IsSublist (cells_of (I.list pass.new) out.rows) (map (picked columns.now) (cells_of (I.list pass.old) (T.table table.now).rows))) }
    ensures order { IfOk result (λ out. IsSublist (cells_of (I.list pass.new) out.rows) (firsts same_cells (map (picked columns.now) (cells_of (I.list pass.old) (T.table table.now).rows)))) }
    ensures terms { IfOk result (λ out. RowsFrom (I.list pass.new) out.rows (TermOfRows (I.list pass.old) (T.table table.now).rows)) }
    ensures writes { Writes I.list I.made I.kept I.lent N.log.cap pass.old pass.new (length (T.table table.now).rows) (is_full result) }
{
    // The words are within the capacity, also where memory is wanting.
    let _ = pass.words();
    let names = pick_names(alloc, columns, table.columns())?;
    let rows = pick_each(alloc, columns, table)?;
    merged(alloc, arena, pass, names, rows)
}
