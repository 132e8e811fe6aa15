// Insertion of rows into a table of a database.

ghost use Rattle.std.specs.Prelude.{◌≡◌, length, All, IfOk};
ghost use Rattle.ct_condition.specs.Writes.{Writes};
ghost use Rattle.ct_operators.specs.Tables.{IsRow, AreRows};
ghost use Rattle.ct_operators.specs.Refusals.{is_full};
ghost use Rattle.ct_table.specs.Growing.{Apart, entries_of, rows_after, AreInserted};

use crate::preparing::prepared;
use crate::sharing::SharedTable;
use crate::stored::Put;
use ct_arena::{Arena, Site};
use ct_condition::Interner;
use ct_operators::TableError;
use ct_word::CRow;
use std::alloc::Global;

/// The conditions to put at cells so that a table of a database gets these rows, as `prepared` finds and makes them. A
/// table whose rows are not found by their cells is copied for that. The table stays as it is.
///
/// # Errors
/// `Full` where the log has no room for a condition, `Memory` where there is none for the rows.
pub fn insertions<N: Site, I: Interner<N>>(
    alloc: Global,
    arena: &Arena<N>,
    pass: &mut I,
    table: &SharedTable,
    rows: &[CRow],
) -> Result<Vec<Put>, TableError>
    requires table { AreRows (I.list pass.old) (length table.now.columns) table.now.rows }
    requires rows { All (IsRow (I.list pass.old) (length table.now.columns)) rows.now }
    ensures apart { Apart (entries_of table.now.rows) }
    ensures inserted { IfOk result (λ out. AreInserted (I.list pass.old) (I.list pass.new) (length table.now.columns) table.now.rows rows.now (rows_after table.now.rows out.items)) }
    ensures writes { Writes I.list I.made I.kept I.lent N.log.cap pass.old pass.new (length rows.now) (is_full result) }
{
    let _ = pass.words();
    match table.keyed() {
        Some(stored) => prepared(alloc, arena, pass, stored, rows),
        None => {
            let stored = table.stored(alloc)?;
            prepared(alloc, arena, pass, &stored, rows)
        }
    }
}
