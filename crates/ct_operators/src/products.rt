// The product of two tables.

ghost use Rattle.std.specs.Prelude.{◌≡◌, ◌+◌, ◌*◌, [], ◌∷◌, ◌++◌, length, map, IfOk, OnOk};
ghost use Rattle.ct_word.specs.Value.{World};
ghost use Rattle.ct_word.specs.Reading.{term_at};
ghost use Rattle.ct_word.specs.Sublist.{IsSublist};
ghost use Rattle.ct_query.specs.Database.{SameSet};
ghost use Rattle.ct_operators.specs.Tables.{IsRow, AreRows, value_of_rows, cells_of};
ghost use Rattle.ct_query.specs.Rows.{joins};
ghost use Rattle.ct_operators.specs.Building.{Builds};
ghost use Rattle.ct_operators.specs.Terms.{TermOfRows, RowsFrom};
ghost use Rattle.ct_operators.specs.Refusals.{is_full};
ghost use Rattle.ct_condition.specs.Writes.{Writes};

use crate::error::TableError;
use crate::merging::merged;
use crate::rows::names;
use crate::source::RowSource;
use crate::table::CTable;
use ct_arena::{Arena, Site};
use ct_condition::{Interner, and};
use ct_word::{CRow, List, Text};
use std::alloc::{AllocError, Global};

/// Puts the cells of two rows, one after the other, under a condition last.
fn push_joined(to: &mut Vec<CRow>, left: &CRow, right: &CRow, cond: u32) -> Result<(), AllocError>
    ensures { OnOk result (to.new.items ≡ to.old.items ++ record { cells = left.now.cells ++ right.now.cells; cond = cond } ∷ []) }
{
    let mut cells = left.cells.clone()?.into_vec();
    cells.extend_from_slice(right.cells.as_slice())?;
    to.push(CRow {
        cells: List::from_vec(cells),
        cond,
    })?;
    Ok(())
}

/// The names of both, one after the other.
///
/// # Errors
/// `AllocError` where there is no memory for them.
pub fn joined_names(left: &List<Text>, right: &List<Text>) -> Result<List<Text>, AllocError>
    ensures { IfOk result (λ out. out ≡ left.now ++ right.now) }
{
    let mut joined = names(left)?.into_vec();
    for name in right.as_slice() {
        joined.push(name.clone()?)?;
    }
    Ok(List::from_vec(joined))
}

/// A row joined with each row of a table, each under both conditions.
fn pair_row<N: Site, I: Interner<N>, R: RowSource>(
    alloc: Global,
    arena: &Arena<N>,
    pass: &mut I,
    row: &CRow,
    right: &R,
) -> Result<Vec<CRow>, TableError>
    requires row { IsRow (I.list pass.old) (length row.now.cells) row.now }
    requires right { AreRows (I.list pass.old) (length (R.table right.now).columns) (R.table right.now).rows }
    ensures pairs { IfOk result (λ out. Builds (I.list pass.old) (I.list pass.new) (length row.now.cells + length (R.table right.now).columns) (map (λ c. map (term_at (I.list pass.old)) row.now.cells ++ c) (cells_of (I.list pass.old) (R.table right.now).rows)) (λ v. joins (value_of_rows (I.list pass.old) v (row.now ∷ [])) (value_of_rows (I.list pass.old) v (R.table right.now).rows)) (TermOfRows (I.list pass.old) (row.now ∷ (R.table right.now).rows)) out.items) }
    ensures writes { Writes I.list I.made I.kept I.lent N.log.cap pass.old pass.new (length (R.table right.now).rows) (is_full result) }
{
    let _ = pass.words();
    let mut pairs = Vec::new(alloc);
    for nth in 0..right.len() {
        let _ = pass.words();
        let other = right.row(nth);
        let cond = and(arena, pass, row.cond, other.cond)?;
        push_joined(&mut pairs, row, other, cond)?;
    }
    Ok(pairs)
}

/// Each row of the left table joined with each of the right one.
fn pairs<N: Site, I: Interner<N>, L: RowSource, R: RowSource>(
    alloc: Global,
    arena: &Arena<N>,
    pass: &mut I,
    left: &L,
    right: &R,
) -> Result<Vec<CRow>, TableError>
    requires left { AreRows (I.list pass.old) (length (L.table left.now).columns) (L.table left.now).rows }
    requires right { AreRows (I.list pass.old) (length (R.table right.now).columns) (R.table right.now).rows }
    ensures pairs { IfOk result (λ out. Builds (I.list pass.old) (I.list pass.new) (length (L.table left.now).columns + length (R.table right.now).columns) (joins (cells_of (I.list pass.old) (L.table left.now).rows) (cells_of (I.list pass.old) (R.table right.now).rows)) (λ v. joins (value_of_rows (I.list pass.old) v (L.table left.now).rows) (value_of_rows (I.list pass.old) v (R.table right.now).rows)) (TermOfRows (I.list pass.old) ((L.table left.now).rows ++ (R.table right.now).rows)) out.items) }
    ensures writes { Writes I.list I.made I.kept I.lent N.log.cap pass.old pass.new (length (L.table left.now).rows * length (R.table right.now).rows) (is_full result) }
{
    let _ = pass.words();
    let mut pairs = Vec::new(alloc);
    for nth in 0..left.len() {
        let _ = pass.words();
        let row = left.row(nth);
        let mut more = pair_row(alloc, arena, pass, row, right)?;
        pairs.append(&mut more)?;
    }
    Ok(pairs)
}

/// Each row of the left table joined with each of the right one, in the order of the left rows, under the names of
/// both.
///
/// # Errors
/// `Full` where the log has no room for a condition, `Memory` where there is none for the rows.
pub fn product<N: Site, I: Interner<N>, L: RowSource, R: RowSource>(
    alloc: Global,
    arena: &Arena<N>,
    pass: &mut I,
    left: &L,
    right: &R,
) -> Result<CTable, TableError>
    requires left { AreRows (I.list pass.old) (length (L.table left.now).columns) (L.table left.now).rows }
    requires right { AreRows (I.list pass.old) (length (R.table right.now).columns) (R.table right.now).rows }
    ensures columns { IfOk result (λ out. out.columns ≡ (L.table left.now).columns ++ (R.table right.now).columns) }
    ensures rows { IfOk result (λ out. AreRows (I.list pass.new) (length (L.table left.now).columns + length (R.table right.now).columns) out.rows) }
    ensures tuples { (v : World) → IfOk result (λ out. SameSet (value_of_rows (I.list pass.new) v out.rows) (joins (value_of_rows (I.list pass.old) v (L.table left.now).rows) (value_of_rows (I.list pass.old) v (R.table right.now).rows))) }
    ensures part { IfOk result (λ out. IsSublist (cells_of (I.list pass.new) out.rows) (joins (cells_of (I.list pass.old) (L.table left.now).rows) (cells_of (I.list pass.old) (R.table right.now).rows))) }
    ensures terms { IfOk result (λ out. RowsFrom (I.list pass.new) out.rows (TermOfRows (I.list pass.old) ((L.table left.now).rows ++ (R.table right.now).rows))) }
    ensures writes { Writes I.list I.made I.kept I.lent N.log.cap pass.old pass.new (length (L.table left.now).rows * length (R.table right.now).rows) (is_full result) }
{
    // The words are within the capacity, also where memory is wanting.
    let _ = pass.words();
    let names = joined_names(left.columns(), right.columns())?;
    let pairs = pairs(alloc, arena, pass, left, right)?;
    merged(alloc, arena, pass, names, pairs)
}
