// Rows with the same cells merged into the first of them.

ghost use Rattle.std.specs.Prelude.{◌≡◌, length, All, IfOk};
ghost use Rattle.ct_word.specs.Value.{World, same_cells};
ghost use Rattle.ct_word.specs.Sublist.{IsSublist};
ghost use Rattle.ct_query.specs.Database.{SameSet};
ghost use Rattle.ct_condition.specs.Writes.{Writes};
ghost use Rattle.ct_operators.specs.Merging.{repeats};
ghost use Rattle.ct_operators.specs.Tables.{IsRow, AreRows, value_of_rows, cells_of, firsts};
ghost use Rattle.ct_operators.specs.Terms.{TermOfRows, RowsFrom};
ghost use Rattle.ct_operators.specs.Refusals.{is_full};

use crate::error::TableError;
use crate::gathering::Gathering;
use crate::table::CTable;
use ct_arena::{Arena, Site};
use ct_condition::Interner;
use ct_word::{CRow, List, Text};
use std::alloc::Global;

/// The table of these columns and rows, where each row whose cells are those of an earlier one is merged into the
/// first of them, by the disjunction of their conditions, and rows under the word false are left out.
///
/// # Errors
/// `Full` where the log has no room for a condition, `Memory` where there is none for the rows.
pub(crate) fn merged<N: Site, I: Interner<N>>(
    alloc: Global,
    arena: &Arena<N>,
    pass: &mut I,
    columns: List<Text>,
    rows: Vec<CRow>,
) -> Result<CTable, TableError>
    requires rows { All (IsRow (I.list pass.old) (length columns)) rows.items }
    ensures columns { IfOk result (λ out. out.columns ≡ columns) }
    ensures rows { IfOk result (λ out. AreRows (I.list pass.new) (length columns) out.rows) }
    ensures tuples { (v : World) → IfOk result (λ out. SameSet (value_of_rows (I.list pass.new) v out.rows) (value_of_rows (I.list pass.old) v rows.items)) }
    ensures order { IfOk result (λ out. IsSublist (cells_of (I.list pass.new) out.rows) (firsts same_cells (cells_of (I.list pass.old) rows.items))) }
    ensures terms { IfOk result (λ out. RowsFrom (I.list pass.new) out.rows (TermOfRows (I.list pass.old) rows.items)) }
    ensures writes { Writes I.list I.made I.kept I.lent N.log.cap pass.old pass.new (repeats (I.list pass.old) rows.items) (is_full result) }
{
    // The words are within the capacity, also where no row adds any.
    let _ = pass.words();
    let mut gathered = Gathering::make(alloc, rows.len())?;
    for row in rows {
        gathered.add(arena, pass, row)?;
    }
    let _ = pass.words();
    Ok(gathered.finish(alloc, columns)?)
}
