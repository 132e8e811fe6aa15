// The union of two tables.

ghost use Rattle.std.specs.Prelude.{◌≡◌, ◌+◌, ◌++◌, length, IfOk, OnOk};
ghost use Rattle.ct_word.specs.Value.{World, same_cells};
ghost use Rattle.ct_word.specs.Sublist.{IsSublist};
ghost use Rattle.ct_query.specs.Database.{SameSet};
ghost use Rattle.ct_condition.specs.Writes.{Writes};
ghost use Rattle.ct_operators.specs.Tables.{AreRows, value_of_rows, cells_of, firsts};
ghost use Rattle.ct_operators.specs.Terms.{TermOfRows, RowsFrom};
ghost use Rattle.ct_operators.specs.Refusals.{is_full};

use crate::error::TableError;
use crate::merging::merged;
use crate::rows::{names, push_under};
use crate::source::RowSource;
use crate::table::CTable;
use ct_arena::{Arena, Site};
use ct_condition::Interner;
use ct_word::CRow;
use std::alloc::{AllocError, Global};

/// Copies of the rows of a table, put after others.
fn copy_all<T: RowSource>(to: &mut Vec<CRow>, table: &T) -> Result<(), AllocError>
    ensures { OnOk result (to.new.items ≡ to.old.items ++ (T.table table.now).rows) }
{
    for nth in 0..table.len() {
        let row = table.row(nth);
        push_under(to, row, row.cond)?;
    }
    Ok(())
}

/// The rows of both tables, the left ones first, under the names of the left columns. A right row whose cells are
/// those of a left one is merged into it.
///
/// # Errors
/// `Full` where the log has no room for a condition, `Memory` where there is none for the rows.
pub fn union<N: Site, I: Interner<N>, L: RowSource, R: RowSource>(
    alloc: Global,
    arena: &Arena<N>,
    pass: &mut I,
    left: &L,
    right: &R,
) -> Result<CTable, TableError>
    requires left { AreRows (I.list pass.old) (length (L.table left.now).columns) (L.table left.now).rows }
    requires right { AreRows (I.list pass.old) (length (R.table right.now).columns) (R.table right.now).rows }
    requires columns { length (R.table right.now).columns ≡ length (L.table left.now).columns }
    ensures columns { IfOk result (λ out. out.columns ≡ (L.table left.now).columns) }
    ensures rows { IfOk result (λ out. AreRows (I.list pass.new) (length (L.table left.now).columns) out.rows) }
    ensures tuples { (v : World) → IfOk result (λ out. SameSet (value_of_rows (I.list pass.new) v out.rows) (value_of_rows (I.list pass.old) v (L.table left.now).rows ++ value_of_rows (I.list pass.old) v (R.table right.now).rows)) }
    ensures part { IfOk result (λ out. IsSublist (cells_of (I.list pass.new) out.rows) (cells_of (I.list pass.old) (L.table left.now).rows ++ cells_of (I.list pass.old) (R.table right.now).rows)) }
    ensures order { IfOk result (λ out. IsSublist (cells_of (I.list pass.new) out.rows) (firsts same_cells (cells_of (I.list pass.old) (L.table left.now).rows ++ cells_of (I.list pass.old) (R.table right.now).rows))) }
    ensures terms { IfOk result (λ out. RowsFrom (I.list pass.new) out.rows (TermOfRows (I.list pass.old) ((L.table left.now).rows ++ (R.table right.now).rows))) }
    ensures writes { Writes I.list I.made I.kept I.lent N.log.cap pass.old pass.new (length (L.table left.now).rows + length (R.table right.now).rows) (is_full result) }
{
    // The words are within the capacity, also where memory is wanting.
    let _ = pass.words();
    let columns = names(left.columns())?;
    let mut all = Vec::new(alloc);
    copy_all(&mut all, left)?;
    copy_all(&mut all, right)?;
    merged(alloc, arena, pass, columns, all)
}
