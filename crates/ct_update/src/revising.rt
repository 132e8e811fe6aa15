// Updates of few rows, as rows that take the places of others.

ghost use Rattle.std.specs.Prelude.{◌≡◌, ◌≢◌, ◌<◌, ◌+◌, ◌*◌, length, All, IfOk, IfSome, IsTrue};
ghost use Rattle.ct_word.specs.declared.kinds.Class.TheVariants as class;
ghost use Rattle.ct_word.specs.declared.values.CRow.{CRow};
ghost use Rattle.ct_word.specs.Value.{World};
ghost use Rattle.ct_word.specs.Sublist.{IsSublist};
ghost use Rattle.ct_word.specs.Reading.{condition_at};
ghost use Rattle.ct_word.specs.WellFormed.{IsWellFormed, is_place_of};
ghost use Rattle.ct_query.specs.Bounds.{ops};
ghost use Rattle.ct_query.specs.Database.{SameSet};
ghost use Rattle.ct_query.specs.Updates.{updated, with_updated};
ghost use Rattle.ct_condition.specs.Writes.{Writes};
ghost use Rattle.ct_operators.specs.Refusals.{is_full};
ghost use Rattle.ct_operators.specs.Tables.{IsRow, AreRows, value_of_rows, cells_of};
ghost use Rattle.ct_operators.specs.Terms.{RowsFrom};
ghost use Rattle.ct_update.specs.Updating.{sets_at, all_halves, FitsUpdate, TermOfUpdate, AreOfHalves};
ghost use Rattle.ct_update.specs.Revising.{AreReplaced, FitsRevision, revised};

use crate::putting::{gathered, with_sets};
use crate::splitting::splits;
use ct_arena::{Arena, Site};
use ct_condition::Interner;
use ct_operators::{CTable, RowSource, TableError};
use ct_word::{CRow, FALSE_PLACE, List};
use std::alloc::{AllocError, Global};

/// How many rows take the places of others at most. For more the table is made anew: each of them is compared with all rows.
const FEW_ROWS: usize = 4;

/// What an update makes of a table.
#[derive(Drop)]
pub enum Revision {
    /// Rows, each in the place of another. The other rows stay as they are.
    Rows(Vec<(usize, CRow)>),
    /// Another table.
    Table(CTable),
}

/// Whether no row has these cells.
fn is_nowhere<T: RowSource>(table: &T, cells: &List<u32>) -> bool
    ensures { IsTrue result → All (λ r. r.cells ≢ cells.now) (T.table table.now).rows }
{
    for nth in 0..table.len() {
        if table.row(nth).cells.as_slice() == cells.as_slice() {
            return false;
        }
    }
    true
}

/// Whether none of these rows has the cells.
fn is_in_none(rows: &[(usize, CRow)], cells: &List<u32>) -> bool
    ensures { IsTrue result → All (λ e. e.1.cells ≢ cells.now) rows.now }
{
    for nth in 0..rows.len() {
        if rows[nth].1.cells.as_slice() == cells.as_slice() {
            return false;
        }
    }
    true
}

/// The rows that take the places of others, where few do, nothing is left of those others, and their cells are those of no
/// row; none where it is not so. A row whose sets say what it has already stays as it is. The conditions are those under
/// which each row stays, and is changed.
fn replaced<T: RowSource>(
    alloc: Global,
    words: &[u64],
    table: &T,
    sets: &[(u32, u32)],
    conds: &[(u32, u32)],
) -> Result<Option<Vec<(usize, CRow)>>, AllocError>
    requires formed { IsWellFormed words.now }
    requires rows { AreRows words.now (length (T.table table.now).columns) (T.table table.now).rows }
    requires positions { All (λ s. s.0 < length (T.table table.now).columns) sets.now }
    requires terms { All (λ s. IsTrue (is_place_of words.now class.Term s.1)) sets.now }
    requires long { length conds.now ≡ length (T.table table.now).rows }
    requires halves { All (IsRow words.now (length (T.table table.now).columns)) (all_halves words.now sets.now (T.table table.now).rows conds.now) }
    ensures { IfOk result (λ o. IfSome o (λ edits. AreReplaced words.now sets.now (T.table table.now).rows conds.now edits.items)) }
{
    let mut edits = Vec::new(alloc);
    for nth in 0..table.len() {
        let row = table.row(nth);
        let (stays, goes) = conds[nth];
        if stays == row.cond && goes == FALSE_PLACE {
            continue;
        }
        if stays != FALSE_PLACE || goes == FALSE_PLACE {
            return Ok(None);
        }
        let cells = with_sets(words, sets, &row.cells)?;
        if goes == row.cond && cells.as_slice() == row.cells.as_slice() {
            continue;
        }
        if edits.len() >= FEW_ROWS {
            return Ok(None);
        }
        if !is_nowhere(table, &cells) || !is_in_none(edits.as_slice(), &cells) {
            return Ok(None);
        }
        edits.push((nth, CRow { cells, cond: goes }))?;
    }
    Ok(Some(edits))
}

/// What `update` makes of the rows, as rows that take the places of others where few are changed, nothing is left of
/// those, and no two rows come to have the same cells; else as another table.
///
/// # Errors
/// `Full` where the log has no room for a condition, `Memory` where there is none for the rows.
pub fn revise<N: Site, I: Interner<N>, T: RowSource>(
    alloc: Global,
    arena: &Arena<N>,
    pass: &mut I,
    table: &T,
    sets: &[(u32, u32)],
    cond: u32,
) -> Result<Revision, TableError>
    requires rows { AreRows (I.list pass.old) (length (T.table table.now).columns) (T.table table.now).rows }
    requires update { FitsUpdate (I.list pass.old) (length (T.table table.now).columns) sets.now cond }
    ensures fits { IfOk result (FitsRevision (T.table table.now)) }
    ensures rows { IfOk result (λ out. AreRows (I.list pass.new) (length (T.table table.now).columns) (revised (T.table table.now) out).rows) }
    ensures tuples { (v : World) → IfOk result (λ out. SameSet (value_of_rows (I.list pass.new) v (revised (T.table table.now) out).rows) (updated v (condition_at (I.list pass.old) cond) (sets_at (I.list pass.old) sets.now) (value_of_rows (I.list pass.old) v (T.table table.now).rows))) }
    ensures part { IfOk result (λ out. IsSublist (cells_of (I.list pass.new) (revised (T.table table.now) out).rows) (with_updated (sets_at (I.list pass.old) sets.now) (cells_of (I.list pass.old) (T.table table.now).rows))) }
    ensures order { IfOk result (λ out. AreOfHalves (I.list pass.old) (I.list pass.new) (length (T.table table.now).columns) sets.now cond (T.table table.now).rows (revised (T.table table.now) out).rows) }
    ensures terms { IfOk result (λ out. RowsFrom (I.list pass.new) (revised (T.table table.now) out).rows (TermOfUpdate (I.list pass.old) (T.table table.now).rows sets.now cond)) }
    ensures writes { Writes I.list I.made I.kept I.lent N.log.cap pass.old pass.new (length (T.table table.now).rows * (ops (condition_at (I.list pass.old) cond) + 5)) (is_full result) }
{
    let _ = pass.words();
    let conds = splits(alloc, arena, pass, table, cond)?;
    let edits = replaced(alloc, pass.words(), table, sets, conds.as_slice())?;
    if let Some(edits) = edits {
        return Ok(Revision::Rows(edits));
    }
    let table = gathered(alloc, arena, pass, table, sets, conds.as_slice())?;
    Ok(Revision::Table(table))
}
