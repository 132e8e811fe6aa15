// Two tables joined: the pairs of rows for which a predicate holds, in one pass.

ghost use Rattle.std.specs.Prelude.{◌≡◌, ◌⊎◌, ◌<◌, ◌+◌, ◌*◌, ◌^◌, ◌++◌, ◌∷◌, [], true, length, map, filter, All, IfOk, OnOk, IsTrue, is_err};
ghost use mathlib.Core.List.{IsPrefix};
ghost use Rattle.ct_word.specs.declared.kinds.Class.TheVariants as class;
ghost use Rattle.ct_word.specs.Value.{World};
ghost use Rattle.ct_word.specs.Condition.{holds};
ghost use Rattle.ct_word.specs.Sublist.{IsSublist};
ghost use Rattle.ct_word.specs.WellFormed.{is_place_of};
ghost use Rattle.ct_arena.specs.Counts.{opening};
ghost use Rattle.ct_query.specs.Bounds.{ops};
ghost use Rattle.ct_query.specs.Database.{SameSet};
ghost use Rattle.ct_query.specs.Fits.{FitsRows};
ghost use Rattle.ct_query.specs.Pred.{condition_of};
ghost use Rattle.ct_query.specs.Rows.{joins};
ghost use Rattle.ct_condition.specs.Places.{new_terms};
ghost use Rattle.ct_condition.specs.Rows.{on_row};
ghost use Rattle.ct_condition.specs.Terms.{IsNamed, IsOnRow, TermsFrom};
ghost use Rattle.ct_condition.specs.Truth.{HasTruth};
ghost use Rattle.ct_condition.specs.Writes.{Writes};
ghost use Rattle.ct_operators.specs.Building.{HoldsWhere};
ghost use Rattle.ct_operators.specs.Refusals.{is_full};
ghost use Rattle.ct_operators.specs.Tables.{IsRow, AreRows, value_of_rows, cells_of};
ghost use Rattle.ct_operators.specs.Terms.{TermOfRows, RowsFrom, IsNoColumn};
ghost use Rattle.ct_algebra.specs.Equals.{HasEqual, differ_in};
ghost use Rattle.ct_algebra.specs.Joining.{MakesPairs, ShownBeside, rows_at, row_under, pair_holds, pair_words, TermOfPair, TermOfJoin};
ghost use Rattle.ct_algebra.specs.Keyed.{key_of};
ghost use Rattle.ct_plan.specs.declared.sides.Side.TheVariants as side;

use crate::equals::{Equal, differ_in, equals_of};
use crate::keys::{key_of, keys_of};
use crate::operands::Operand;
use ct_arena::{Arena, Full, Site};
use ct_condition::{Interner, and, pred};
use ct_join::Index;
use ct_operators::joined_names;
use ct_plan::Side;
use ct_query::Pred;
use ct_table::{CRow, CTable, RowSource, TableError};
use ct_word::{FALSE_PLACE, List};
use std::alloc::{AllocError, Global};

/// What is asked of a pair of rows: a predicate, and the columns that it asks to be equal.
#[derive(Clone, Copy)]
pub(crate) struct Asked<'a> {
    pub pred: &'a Pred,
    pub equals: &'a [Equal],
}

/// Makes `cells` those of two rows, one after the other.
fn fill(cells: &mut Vec<u32>, left: &CRow, right: &CRow) -> Result<(), AllocError>
    ensures { OnOk result (cells.new.items ≡ left.now.cells ++ right.now.cells) }
{
    cells.clear();
    cells.extend_from_slice(left.cells.as_slice())?;
    cells.extend_from_slice(right.cells.as_slice())?;
    Ok(())
}

/// Puts a row of these cells last, if its condition is not the word false.
fn push_possible(to: &mut Vec<CRow>, cells: &Vec<u32>, cond: u32) -> Result<(), AllocError>
    ensures { OnOk result (to.new.items ≡ to.old.items ++ row_under cells.now.items cond) }
{
    if cond != FALSE_PLACE {
        to.push(CRow {
            cells: List::from_vec(cells.clone()?),
            cond,
        })?;
    }
    Ok(())
}

/// The place of a predicate on the cells of a pair, where its terms have places.
fn placed<N: Site, I: Interner<N>>(
    arena: &Arena<N>,
    pass: &mut I,
    p: &Pred,
    cells: &[u32],
) -> Result<u32, Full>
    requires fits { FitsRows (length cells.now) (condition_of p.now) }
    requires cells { All (λ s. IsTrue (is_place_of (I.list pass.old) class.Term s)) cells.now }
    requires placed { new_terms (I.list pass.old) (condition_of p.now) ≡ 0 }
    ensures truth { IfOk result (λ place. HasTruth (I.list pass.new) place (on_row (I.list pass.old) (condition_of p.now) cells.now)) }
    ensures terms { IfOk result (λ place. TermsFrom (I.list pass.new) place (IsOnRow (I.list pass.old) cells.now (condition_of p.now))) }
    ensures begins { IsPrefix opening (I.list pass.new) }
    ensures writes { Writes I.list I.made I.kept I.lent N.log.cap pass.old pass.new (ops (condition_of p.now)) (is_err result) }
{
    let put = pred(arena, pass, p, cells);
    // The words are well formed, also where there was no room for all.
    let _ = pass.words();
    put
}

/// The place of the condition that two rows are shown and another one holds. Where that one is the word false, it is the
/// place, and nothing is made.
fn shown_beside<N: Site, I: Interner<N>>(
    arena: &Arena<N>,
    pass: &mut I,
    left: &CRow,
    right: &CRow,
    place: u32,
) -> Result<u32, Full>
    requires left { IsTrue (is_place_of (I.list pass.old) class.Cond left.now.cond) }
    requires right { IsTrue (is_place_of (I.list pass.old) class.Cond right.now.cond) }
    requires place { IsTrue (is_place_of (I.list pass.old) class.Cond place) }
    ensures shown { IfOk result (ShownBeside (I.list pass.old) (I.list pass.new) left.now.cond right.now.cond place) }
    ensures left_out { place ≡ 1 → pass.new ≡ pass.old }
    ensures writes { Writes I.list I.made I.kept I.lent N.log.cap pass.old pass.new 2 (is_err result) }
{
    let _ = pass.words();
    if place == FALSE_PLACE {
        return Ok(place);
    }
    let both = and(arena, pass, left.cond, right.cond)?;
    and(arena, pass, both, place)
}

/// The place of the condition that two rows are shown and that a predicate holds for their cells. Where the predicate
/// comes to the word false, that word is the place, and no further condition is made.
fn met<N: Site, I: Interner<N>>(
    arena: &Arena<N>,
    pass: &mut I,
    p: &Pred,
    left: &CRow,
    right: &CRow,
    cells: &[u32],
) -> Result<u32, Full>
    requires left { IsRow (I.list pass.old) (length left.now.cells) left.now }
    requires right { IsRow (I.list pass.old) (length right.now.cells) right.now }
    requires cells { cells.now ≡ left.now.cells ++ right.now.cells }
    requires predicate { FitsRows (length left.now.cells + length right.now.cells) (condition_of p.now) }
    requires placed { new_terms (I.list pass.old) (condition_of p.now) ≡ 0 }
    ensures holds { IfOk result (λ place. HoldsWhere (I.list pass.new) place (pair_holds (I.list pass.old) (condition_of p.now) left.now right.now)) }
    ensures terms { IfOk result (λ place. TermsFrom (I.list pass.new) place (TermOfPair (I.list pass.old) (condition_of p.now) left.now right.now)) }
    ensures writes { Writes I.list I.made I.kept I.lent N.log.cap pass.old pass.new (ops (condition_of p.now) + 2) (is_err result) }
{
    let _ = pass.words();
    let place = placed(arena, pass, p, cells)?;
    shown_beside(arena, pass, left, right, place)
}

/// The same. Where two columns that the predicate asks to be equal have different constants, no word is made.
fn paired<N: Site, I: Interner<N>>(
    arena: &Arena<N>,
    pass: &mut I,
    asked: Asked<'_>,
    left: &CRow,
    right: &CRow,
    cells: &[u32],
) -> Result<u32, Full>
    requires left { IsRow (I.list pass.old) (length left.now.cells) left.now }
    requires right { IsRow (I.list pass.old) (length right.now.cells) right.now }
    requires cells { cells.now ≡ left.now.cells ++ right.now.cells }
    requires predicate { FitsRows (length left.now.cells + length right.now.cells) (condition_of asked.pred.now) }
    requires equals { All (HasEqual (length left.now.cells) (condition_of asked.pred.now)) asked.equals.now }
    requires placed { new_terms (I.list pass.old) (condition_of asked.pred.now) ≡ 0 }
    ensures holds { IfOk result (λ place. HoldsWhere (I.list pass.new) place (pair_holds (I.list pass.old) (condition_of asked.entry.pred.now) left.now right.now)) }
    ensures terms { IfOk result (λ place. TermsFrom (I.list pass.new) place (TermOfPair (I.list pass.old) (condition_of asked.entry.pred.now) left.now right.now)) }
    ensures writes { Writes I.list I.made I.kept I.lent N.log.cap pass.old pass.new (pair_words (condition_of asked.entry.pred.now)) (is_err result) }
    ensures apart { differ_in (I.list pass.old) asked.entry.equals.now left.now.cells right.now.cells ≡ true → pass.new ≡ pass.old }
{
    if differ_in(
        pass.words(),
        asked.equals,
        left.cells.as_slice(),
        right.cells.as_slice(),
    ) {
        return Ok(FALSE_PLACE);
    }
    match asked.pred {
        Pred::True => and(arena, pass, left.cond, right.cond),
        _ => met(arena, pass, asked.pred, left, right, cells),
    }
}

/// A row joined with those at these places. Pairs under the word false are left out.
fn joined_at<N: Site, I: Interner<N>>(
    alloc: Global,
    arena: &Arena<N>,
    pass: &mut I,
    asked: Asked<'_>,
    left: &CRow,
    right: &Operand,
    places: &[u32],
) -> Result<Vec<CRow>, TableError>
    requires left { IsRow (I.list pass.old) (length left.now.cells) left.now }
    requires right { AreRows (I.list pass.old) (length right.now.columns) right.now.rows }
    requires places { All (λ j. j < length right.now.rows) places.now }
    requires predicate { FitsRows (length left.now.cells + length right.now.columns) (condition_of asked.pred.now) }
    requires equals { All (HasEqual (length left.now.cells) (condition_of asked.pred.now)) asked.equals.now }
    requires placed { new_terms (I.list pass.old) (condition_of asked.pred.now) ≡ 0 }
    ensures rows { IfOk result (λ out. MakesPairs (I.list pass.old) (I.list pass.new) (length left.now.cells + length right.now.columns) (condition_of asked.entry.pred.now) (left.now ∷ []) (rows_at right.now.rows left.now places.now) (TermOfJoin (I.list pass.old) (condition_of asked.entry.pred.now) (left.now ∷ right.now.rows)) out.items) }
    ensures writes { Writes I.list I.made I.kept I.lent N.log.cap pass.old pass.new (length places.now * pair_words (condition_of asked.entry.pred.now)) (is_full result) }
{
    let _ = pass.words();
    let mut cells = Vec::new(alloc);
    let mut out = Vec::new(alloc);
    for place in places {
        let _ = pass.words();
        let other = right.row(*place as usize);
        fill(&mut cells, left, other)?;
        let cond = paired(arena, pass, asked, left, other, cells.as_slice())?;
        let _ = pass.words();
        push_possible(&mut out, &cells, cond)?;
    }
    Ok(out)
}

/// A row joined with all rows of a table, of which those are looked at whose keys may be of one value with its own.
/// `places` is room for their places.
pub(crate) fn joined_row<N: Site, I: Interner<N>>(
    alloc: Global,
    arena: &Arena<N>,
    pass: &mut I,
    asked: Asked<'_>,
    left: &CRow,
    right: &Operand,
    index: &Index<'_>,
    places: &mut Vec<u32>,
) -> Result<Vec<CRow>, TableError>
    requires left { IsRow (I.list pass.old) (length left.now.cells) left.now }
    requires right { AreRows (I.list pass.old) (length right.now.columns) right.now.rows }
    requires predicate { FitsRows (length left.now.cells + length right.now.columns) (condition_of asked.pred.now) }
    requires equals { All (HasEqual (length left.now.cells) (condition_of asked.pred.now)) asked.equals.now }
    requires placed { new_terms (I.list pass.old) (condition_of asked.pred.now) ≡ 0 }
    requires keys { index.now ≡ map (λ r. key_of (I.list pass.old) side.Right asked.equals.now r.cells) right.now.rows }
    ensures rows { IfOk result (λ out. MakesPairs (I.list pass.old) (I.list pass.new) (length left.now.cells + length right.now.columns) (condition_of asked.entry.pred.now) (left.now ∷ []) right.now.rows (TermOfJoin (I.list pass.old) (condition_of asked.entry.pred.now) (left.now ∷ right.now.rows)) out.items) }
    ensures writes { Writes I.list I.made I.kept I.lent N.log.cap pass.old pass.new (length right.now.rows * pair_words (condition_of asked.entry.pred.now)) (is_full result) }
{
    let key = key_of(
        pass.words(),
        Side::Left,
        asked.equals,
        left.cells.as_slice(),
    );
    index.find(key, places)?;
    joined_at(alloc, arena, pass, asked, left, right, places.as_slice())
}

/// The pairs of rows of two tables for which a predicate holds, in the order of the left rows.
fn joined<N: Site, I: Interner<N>>(
    alloc: Global,
    arena: &Arena<N>,
    pass: &mut I,
    asked: Asked<'_>,
    left: &Operand,
    right: &Operand,
) -> Result<Vec<CRow>, TableError>
    requires left { AreRows (I.list pass.old) (length left.now.columns) left.now.rows }
    requires right { AreRows (I.list pass.old) (length right.now.columns) right.now.rows }
    requires few { length right.now.rows < 2 ^ 32 }
    requires predicate { FitsRows (length left.now.columns + length right.now.columns) (condition_of asked.pred.now) }
    requires equals { All (HasEqual (length left.now.columns) (condition_of asked.pred.now)) asked.equals.now }
    requires placed { new_terms (I.list pass.old) (condition_of asked.pred.now) ≡ 0 }
    ensures rows { IfOk result (λ out. MakesPairs (I.list pass.old) (I.list pass.new) (length left.now.columns + length right.now.columns) (condition_of asked.entry.pred.now) left.now.rows right.now.rows (TermOfJoin (I.list pass.old) (condition_of asked.entry.pred.now) (left.now.rows ++ right.now.rows)) out.items) }
    ensures writes { Writes I.list I.made I.kept I.lent N.log.cap pass.old pass.new (length left.now.rows * length right.now.rows * pair_words (condition_of asked.entry.pred.now)) (is_full result) }
{
    let _ = pass.words();
    let keys = keys_of(alloc, pass.words(), Side::Right, asked.equals, right)?;
    let index = Index::make(alloc, keys.as_slice())?;
    let mut places = Vec::new(alloc);
    let mut out = Vec::new(alloc);
    for nth in 0..left.len() {
        let row = left.row(nth);
        let _ = pass.words();
        let mut more = joined_row(alloc, arena, pass, asked, row, right, &index, &mut places)?;
        out.append(&mut more)?;
    }
    Ok(out)
}

/// The pairs of rows of two tables for which a predicate holds, in the order of the left rows, each under both conditions
/// and the one that it does. The terms of the predicate have places, and a column of it is a cell of the pair. Pairs
/// under the word false are left out.
///
/// # Errors
/// `Full` where the log has no room for a condition, `Memory` where there is none for the rows.
pub(crate) fn join<N: Site, I: Interner<N>>(
    alloc: Global,
    arena: &Arena<N>,
    pass: &mut I,
    p: &Pred,
    left: &Operand,
    right: &Operand,
) -> Result<CTable, TableError>
    requires left { AreRows (I.list pass.old) (length left.now.columns) left.now.rows }
    requires right { AreRows (I.list pass.old) (length right.now.columns) right.now.rows }
    requires few { length right.now.rows < 2 ^ 32 }
    requires predicate { FitsRows (length left.now.columns + length right.now.columns) (condition_of p.now) }
    requires placed { new_terms (I.list pass.old) (condition_of p.now) ≡ 0 }
    ensures width { IfOk result (λ out. length out.columns ≡ length left.now.columns + length right.now.columns) }
    ensures rows { IfOk result (λ out. AreRows (I.list pass.new) (length left.now.columns + length right.now.columns) out.rows) }
    ensures tuples { (v : World) → IfOk result (λ out. SameSet (value_of_rows (I.list pass.new) v out.rows) (filter (λ t. holds v t (condition_of p.now)) (joins (value_of_rows (I.list pass.old) v left.now.rows) (value_of_rows (I.list pass.old) v right.now.rows)))) }
    ensures part { IfOk result (λ out. IsSublist (cells_of (I.list pass.new) out.rows) (joins (cells_of (I.list pass.old) left.now.rows) (cells_of (I.list pass.old) right.now.rows))) }
    ensures terms { IfOk result (λ out. RowsFrom (I.list pass.new) out.rows (λ t. TermOfRows (I.list pass.old) (left.now.rows ++ right.now.rows) t ⊎ (IsNamed (condition_of p.now) t × IsNoColumn t))) }
    ensures writes { Writes I.list I.made I.kept I.lent N.log.cap pass.old pass.new (length left.now.rows * length right.now.rows * pair_words (condition_of p.now)) (is_full result) }
{
    let _ = pass.words();
    let columns = joined_names(left.columns(), right.columns())?;
    let equals = equals_of(alloc, left.columns().len(), p)?;
    let asked = Asked {
        pred: p,
        equals: equals.as_slice(),
    };
    let rows = joined(alloc, arena, pass, asked, left, right)?;
    Ok(CTable {
        columns,
        rows: List::from_vec(rows),
    })
}
