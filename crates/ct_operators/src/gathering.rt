// Rows gathered one by one, those with the same cells merged into the first of them.

ghost use Rattle.std.specs.Prelude.{◌≡◌, ◌++◌, ◌∷◌, [], ℕ, List, length, All, IfOk, OnOk, IsTrue, is_err};
ghost use Rattle.std.specs.List.{filter};
ghost use mathlib.Core.List.{IsPrefix};
ghost use Rattle.ct_word.specs.declared.kinds.Class.TheVariants as class;
ghost use Rattle.ct_word.specs.declared.values.Value.{Value};
ghost use Rattle.ct_word.specs.Value.{World};
ghost use Rattle.ct_word.specs.WellFormed.{IsWellFormed, is_place_of};
ghost use Rattle.ct_arena.specs.Counts.{opening};
ghost use Rattle.ct_condition.specs.Terms.{TermsFrom, BelowEither};
ghost use Rattle.ct_condition.specs.Truth.{HasTruth, or_at, truth_at};
ghost use Rattle.ct_condition.specs.Writes.{Writes};
ghost use Rattle.ct_operators.specs.Tables.{IsRow};
ghost use Rattle.ct_operators.specs.Merging.{rows_of, Merged, is_possible, known, AreGathered, IsGathered};
ghost use Rattle.ct_operators.specs.Refusals.{is_full};

use crate::error::TableError;
use crate::table::CTable;
use ct_arena::{Arena, Full, Site};
use ct_condition::{Interner, or};
use ct_word::{CRow, Connective, FALSE_PLACE, List, Memory, Text};
use ct_worlds::{Shape, shape_at};
use indexmap::IndexMap;
use std::alloc::{AllocError, Global};
use std::marker::Model;

/// Rows that are gathered one by one. A row whose cells are those of an earlier one is merged into the first of them,
/// by the disjunction of both conditions. Contracts see the rows in order.
#[derive(Drop)]
pub struct Gathering {
    /// The place of the condition for the cells of each row.
    rows: IndexMap<List<u32>, u32>,
}

impl Model for Gathering {
    ghost use Rattle.std.specs.Prelude.{List};
    ghost use Rattle.ct_word.specs.declared.values.CRow.{CRow};
    ghost use Rattle.ct_operators.specs.Merging.{rows_of};

    ghost Value = { List CRow };

    ghost view = { λ g. rows_of g.rows.entries };
}

/// The rows whose condition is not the word false.
fn possible(alloc: Global, rows: IndexMap<List<u32>, u32>) -> Result<List<CRow>, AllocError>
    ensures { IfOk result (λ out. out ≡ filter is_possible (rows_of rows.entries)) }
{
    let mut out = Vec::new(alloc);
    for (cells, cond) in rows {
        if cond != FALSE_PLACE {
            out.push(CRow { cells, cond })?;
        }
    }
    Ok(List::from_vec(out))
}

/// Whether the word at a place is an Or over this condition.
fn is_or_over(words: &[u64], place: u32, cond: u32) -> bool
    requires formed { IsWellFormed words.now }
    requires place { IsTrue (is_place_of words.now class.Cond place) }
    ensures { IsTrue result → (v : World) (row : List Value) → truth_at words.now place v row ≡ or_at words.now place cond v row }
{
    match shape_at(words, place) {
        Shape::Joined(Connective::Or, left, right) => left == cond || right == cond,
        _ => false,
    }
}

/// The place of the disjunction of two conditions, which is the first one where that is an Or over the second: many rows
/// under one condition that come to have the same cells make one word, and not one each.
///
/// # Errors
/// `Full` where the log has no room for its word.
fn either<N: Site, I: Interner<N>>(
    arena: &Arena<N>,
    pass: &mut I,
    first: u32,
    cond: u32,
) -> Result<u32, Full>
    requires left { IsTrue (is_place_of (I.list pass.old) class.Cond first) }
    requires right { IsTrue (is_place_of (I.list pass.old) class.Cond cond) }
    ensures truth { IfOk result (λ place. HasTruth (I.list pass.new) place (or_at (I.list pass.old) first cond)) }
    ensures terms { IfOk result (λ place. TermsFrom (I.list pass.new) place (BelowEither (I.list pass.old) first cond)) }
    ensures longer { IsPrefix (I.list pass.old) (I.list pass.new) }
    ensures writes { Writes I.list I.made I.kept I.lent N.log.cap pass.old pass.new 1 (is_err result) }
{
    if is_or_over(pass.words(), first, cond) {
        return Ok(first);
    }
    or(arena, pass, first, cond)
}

impl Gathering {
    /// No rows yet, and room for so many.
    ///
    /// # Errors
    /// `Memory` where there is none for them.
    pub fn make(alloc: Global, room: usize) -> Result<Gathering, Memory>
        ensures { IfOk result (λ gathering. gathering ≡ []) }
    {
        let rows = IndexMap::with_capacity(alloc, room)?;
        Ok(Gathering { rows })
    }

    /// Puts a row last, or merges its condition into that of the row with its cells.
    ///
    /// # Errors
    /// `Full` where the log has no room for a condition, `Memory` where there is none for the row.
    pub fn add<N: Site, I: Interner<N>>(
        &mut self,
        arena: &Arena<N>,
        pass: &mut I,
        row: CRow,
    ) -> Result<(), TableError>
        requires rows { All (IsRow (I.list pass.old) (length row.cells)) self.old }
        requires row { IsRow (I.list pass.old) (length row.cells) row }
        ensures merged { OnOk result (Merged (I.list pass.old) (I.list pass.new) self.old row self.new) }
        ensures gathers { (done : List CRow) → AreGathered (I.list pass.old) (length row.cells) done self.old → OnOk result (AreGathered (I.list pass.new) (length row.cells) (done ++ row ∷ []) self.new) }
        ensures writes { Writes I.list I.made I.kept I.lent N.log.cap pass.old pass.new (known row.cells self.old) (is_full result) }
    {
        let _ = pass.words();
        let CRow { cells, cond } = row;
        // One look-up: where the cells have a condition already, the new one stands in its place until both are joined.
        let (place, earlier) = self.rows.insert_full(cells, cond)?;
        if let Some(first) = earlier {
            let both = either(arena, pass, first, cond)?;
            self.rows[place] = both;
        }
        Ok(())
    }

    /// The table of these columns and of the rows whose condition is not the word false.
    ///
    /// # Errors
    /// `Memory` where there is none for the rows.
    pub fn finish(self, alloc: Global, columns: List<Text>) -> Result<CTable, Memory>
        ensures columns { IfOk result (λ out. out.columns ≡ columns) }
        ensures rows { IfOk result (λ out. out.rows ≡ filter is_possible self) }
        ensures gathered { (words : List ℕ) (width : ℕ) (done : List CRow) → IsPrefix opening words → IsWellFormed words → AreGathered words width done self → IfOk result (λ out. IsGathered words width done out.rows) }
    {
        let rows = possible(alloc, self.rows)?;
        Ok(CTable { columns, rows })
    }
}
