// Rows with some of their cells set, where a condition holds for them.

ghost use Rattle.std.specs.Prelude.{◌≡◌, ◌+◌, ◌*◌, length, IfOk};
ghost use Rattle.ct_word.specs.Value.{World};
ghost use Rattle.ct_word.specs.Sublist.{IsSublist};
ghost use Rattle.ct_word.specs.Reading.{condition_at};
ghost use Rattle.ct_query.specs.Bounds.{ops};
ghost use Rattle.ct_query.specs.Database.{SameSet};
ghost use Rattle.ct_query.specs.Updates.{updated, with_updated};
ghost use Rattle.ct_condition.specs.Writes.{Writes};
ghost use Rattle.ct_operators.specs.Refusals.{is_full};
ghost use Rattle.ct_operators.specs.Tables.{AreRows, value_of_rows, cells_of};
ghost use Rattle.ct_operators.specs.Terms.{RowsFrom};
ghost use Rattle.ct_update.specs.Updating.{sets_at, FitsUpdate, TermOfUpdate, AreOfHalves};

use crate::putting::gathered;
use crate::splitting::splits;
use ct_arena::{Arena, Site};
use ct_condition::Interner;
use ct_operators::{CTable, RowSource, TableError};
use std::alloc::Global;

/// The rows, each where a condition does not hold for it, and each with some of its cells set where it does: a set is a
/// position and the place of the term that it gets. A column among those terms or below the condition is a cell of the
/// row as it was. Rows that no longer differ are merged into the first of them, and nothing is made for a row under the
/// word false.
///
/// # Errors
/// `Full` where the log has no room for a condition, `Memory` where there is none for the rows.
pub fn update<N: Site, I: Interner<N>, T: RowSource>(
    alloc: Global,
    arena: &Arena<N>,
    pass: &mut I,
    table: &T,
    sets: &[(u32, u32)],
    cond: u32,
) -> Result<CTable, TableError>
    requires rows { AreRows (I.list pass.old) (length (T.table table.now).columns) (T.table table.now).rows }
    requires update { FitsUpdate (I.list pass.old) (length (T.table table.now).columns) sets.now cond }
    ensures columns { IfOk result (λ out. out.columns ≡ (T.table table.now).columns) }
    ensures rows { IfOk result (λ out. AreRows (I.list pass.new) (length (T.table table.now).columns) out.rows) }
    ensures tuples { (v : World) → IfOk result (λ out. SameSet (value_of_rows (I.list pass.new) v out.rows) (updated v (condition_at (I.list pass.old) cond) (sets_at (I.list pass.old) sets.now) (value_of_rows (I.list pass.old) v (T.table table.now).rows))) }
    ensures part { IfOk result (λ out. IsSublist (cells_of (I.list pass.new) out.rows) (with_updated (sets_at (I.list pass.old) sets.now) (cells_of (I.list pass.old) (T.table table.now).rows))) }
    ensures order { IfOk result (λ out. AreOfHalves (I.list pass.old) (I.list pass.new) (length (T.table table.now).columns) sets.now cond (T.table table.now).rows out.rows) }
    ensures terms { IfOk result (λ out. RowsFrom (I.list pass.new) out.rows (TermOfUpdate (I.list pass.old) (T.table table.now).rows sets.now cond)) }
    ensures writes { Writes I.list I.made I.kept I.lent N.log.cap pass.old pass.new (length (T.table table.now).rows * (ops (condition_at (I.list pass.old) cond) + 5)) (is_full result) }
{
    let _ = pass.words();
    let conds = splits(alloc, arena, pass, table, cond)?;
    gathered(alloc, arena, pass, table, sets, conds.as_slice())
}
