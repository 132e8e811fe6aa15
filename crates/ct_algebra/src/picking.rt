// Two tables joined, and some columns of the pairs: each pair is gathered as it is made.

ghost use Rattle.std.specs.Prelude.{◌≡◌, ◌⊎◌, ◌<◌, ◌+◌, ◌*◌, ◌^◌, ◌++◌, List, length, map, filter, All, IfOk, OnOk};
ghost use Rattle.ct_word.specs.declared.values.CRow.{CRow};
ghost use Rattle.ct_word.specs.Value.{World, cell_at};
ghost use Rattle.ct_word.specs.Condition.{holds};
ghost use Rattle.ct_word.specs.Sublist.{IsSublist};
ghost use Rattle.ct_query.specs.Database.{SameSet};
ghost use Rattle.ct_query.specs.Fits.{FitsRows};
ghost use Rattle.ct_query.specs.Patterns.{picked};
ghost use Rattle.ct_query.specs.Pred.{condition_of};
ghost use Rattle.ct_query.specs.Rows.{joins};
ghost use Rattle.ct_condition.specs.Places.{new_terms};
ghost use Rattle.ct_condition.specs.Terms.{IsNamed};
ghost use Rattle.ct_condition.specs.Writes.{Writes};
ghost use Rattle.ct_operators.specs.Merging.{AreGathered};
ghost use Rattle.ct_operators.specs.Projection.{picked_row};
ghost use Rattle.ct_operators.specs.Refusals.{is_full};
ghost use Rattle.ct_operators.specs.Tables.{AreRows, value_of_rows, cells_of};
ghost use Rattle.ct_operators.specs.Terms.{TermOfRows, RowsFrom, IsNoColumn};
ghost use Rattle.ct_algebra.specs.Equals.{HasEqual};
ghost use Rattle.ct_algebra.specs.Joining.{pair_words, TermOfJoin};
ghost use Rattle.ct_algebra.specs.Picking.{HasCells, PicksPairs};

use crate::equals::equals_of;
use crate::joining::{Asked, joined_row};
use crate::keys::keys_of;
use crate::operands::Operand;
use ct_arena::{Arena, Site};
use ct_condition::Interner;
use ct_join::Index;
use ct_operators::{Gathering, pick};
use ct_plan::Side;
use ct_query::Pred;
use ct_table::{CRow, CTable, RowSource, TableError};
use ct_word::{List, Text};
use std::alloc::{AllocError, Global};

/// A name for each of so many columns, by which they are counted. All share one text, since nobody reads them.
fn unnamed(alloc: Global, width: usize) -> Result<List<Text>, AllocError>
    ensures { IfOk result (λ names. length names ≡ width) }
{
    // A copy of a copy takes no memory.
    let shared = Text::from_string(String::new(alloc)).clone()?;
    Ok(List::from_vec(vec![in alloc; shared; width]?))
}

/// Puts rows, with their cells at these positions, to those that are gathered.
fn gather<N: Site, I: Interner<N>>(
    alloc: Global,
    arena: &Arena<N>,
    pass: &mut I,
    columns: &[u32],
    rows: &[CRow],
    gathering: &mut Gathering,
) -> Result<(), TableError>
    requires rows { All (HasCells (I.list pass.old) columns.now) rows.now }
    requires gathered { (done : List CRow) × AreGathered (I.list pass.old) (length columns.now) done gathering.old }
    ensures gathers { (done : List CRow) → AreGathered (I.list pass.old) (length columns.now) done gathering.old → OnOk result (AreGathered (I.list pass.new) (length columns.now) (done ++ map (picked_row columns.now) rows.now) gathering.new) }
    ensures writes { Writes I.list I.made I.kept I.lent N.log.cap pass.old pass.new (length rows.now) (is_full result) }
{
    let _ = pass.words();
    for row in rows {
        let _ = pass.words();
        let some = pick(alloc, columns, row)?;
        gathering.add(arena, pass, some)?;
    }
    Ok(())
}

/// What is gathered of the pairs of rows of two tables for which a predicate holds, with their cells at these positions.
/// The pairs of one left row stand in memory at a time.
fn gathered<N: Site, I: Interner<N>>(
    alloc: Global,
    arena: &Arena<N>,
    pass: &mut I,
    columns: &[u32],
    asked: Asked<'_>,
    left: &Operand,
    right: &Operand,
) -> Result<Gathering, TableError>
    requires left { AreRows (I.list pass.old) (length left.now.columns) left.now.rows }
    requires right { AreRows (I.list pass.old) (length right.now.columns) right.now.rows }
    requires few { length right.now.rows < 2 ^ 32 }
    requires columns { All (λ k. k < length left.now.columns + length right.now.columns) columns.now }
    requires predicate { FitsRows (length left.now.columns + length right.now.columns) (condition_of asked.pred.now) }
    requires equals { All (HasEqual (length left.now.columns) (condition_of asked.pred.now)) asked.equals.now }
    requires placed { new_terms (I.list pass.old) (condition_of asked.pred.now) ≡ 0 }
    ensures rows { IfOk result (λ out. PicksPairs (I.list pass.old) (I.list pass.new) (length left.now.columns + length right.now.columns) columns.now (condition_of asked.entry.pred.now) left.now.rows right.now.rows (TermOfJoin (I.list pass.old) (condition_of asked.entry.pred.now) (left.now.rows ++ right.now.rows)) out) }
    ensures writes { Writes I.list I.made I.kept I.lent N.log.cap pass.old pass.new (length left.now.rows * length right.now.rows * (pair_words (condition_of asked.entry.pred.now) + 1)) (is_full result) }
{
    let _ = pass.words();
    let keys = keys_of(alloc, pass.words(), Side::Right, asked.equals, right)?;
    let index = Index::make(alloc, keys.as_slice())?;
    let mut places = Vec::new(alloc);
    let mut gathering = Gathering::make(alloc, left.len())?;
    for nth in 0..left.len() {
        let row = left.row(nth);
        let _ = pass.words();
        let pairs = joined_row(alloc, arena, pass, asked, row, right, &index, &mut places)?;
        gather(
            alloc,
            arena,
            pass,
            columns,
            pairs.as_slice(),
            &mut gathering,
        )?;
    }
    Ok(gathering)
}

/// The columns at these positions, in this order, of the pairs of rows of two tables for which a predicate holds. The
/// terms of the predicate have places, and a column of it is a cell of the pair. Rows that no longer differ are merged
/// into the first of them, and only those that differ stand in memory.
///
/// # Errors
/// `Full` where the log has no room for a condition, `Memory` where there is none for the rows.
pub(crate) fn join_picked<N: Site, I: Interner<N>>(
    alloc: Global,
    arena: &Arena<N>,
    pass: &mut I,
    columns: &[u32],
    p: &Pred,
    left: &Operand,
    right: &Operand,
) -> Result<CTable, TableError>
    requires left { AreRows (I.list pass.old) (length left.now.columns) left.now.rows }
    requires right { AreRows (I.list pass.old) (length right.now.columns) right.now.rows }
    requires few { length right.now.rows < 2 ^ 32 }
    requires columns { All (λ k. k < length left.now.columns + length right.now.columns) columns.now }
    requires predicate { FitsRows (length left.now.columns + length right.now.columns) (condition_of p.now) }
    requires placed { new_terms (I.list pass.old) (condition_of p.now) ≡ 0 }
    ensures width { IfOk result (λ out. length out.columns ≡ length columns.now) }
    ensures rows { IfOk result (λ out. AreRows (I.list pass.new) (length columns.now) out.rows) }
    ensures tuples { (v : World) → IfOk result (λ out. SameSet (value_of_rows (I.list pass.new) v out.rows) (map (λ u. map (cell_at u) columns.now) (filter (λ t. holds v t (condition_of p.now)) (joins (value_of_rows (I.list pass.old) v left.now.rows) (value_of_rows (I.list pass.old) v right.now.rows))))) }
    ensures part { IfOk result (λ out. IsSublist (cells_of (I.list pass.new) out.rows) (map (picked columns.now) (joins (cells_of (I.list pass.old) left.now.rows) (cells_of (I.list pass.old) right.now.rows)))) }
    ensures terms { IfOk result (λ out. RowsFrom (I.list pass.new) out.rows (λ t. TermOfRows (I.list pass.old) (left.now.rows ++ right.now.rows) t ⊎ (IsNamed (condition_of p.now) t × IsNoColumn t))) }
    ensures writes { Writes I.list I.made I.kept I.lent N.log.cap pass.old pass.new (length left.now.rows * length right.now.rows * (pair_words (condition_of p.now) + 1)) (is_full result) }
{
    let _ = pass.words();
    let names = unnamed(alloc, columns.len())?;
    let equals = equals_of(alloc, left.columns().len(), p)?;
    let asked = Asked {
        pred: p,
        equals: equals.as_slice(),
    };
    let gathering = gathered(alloc, arena, pass, columns, asked, left, right)?;
    let _ = pass.words();
    Ok(gathering.finish(alloc, names)?)
}
