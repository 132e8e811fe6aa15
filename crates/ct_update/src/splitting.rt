// The conditions under which rows stay as they are, and under which they are changed.

ghost use Rattle.std.specs.Prelude.{◌≡◌, ◌⊎◌, ℕ, List, ◌+◌, ◌*◌, ◌&&◌, ◌∷◌, [], not, length, All, IfOk, IsTrue, is_err};
ghost use Rattle.ct_word.specs.declared.kinds.Class.TheVariants as class;
ghost use Rattle.ct_word.specs.Condition.{holds_at};
ghost use Rattle.ct_word.specs.Reading.{condition_at};
ghost use Rattle.ct_word.specs.WellFormed.{is_place_of};
ghost use Rattle.ct_query.specs.Bounds.{ops};
ghost use Rattle.ct_condition.specs.Terms.{TermsFrom};
ghost use Rattle.ct_condition.specs.Writes.{Writes};
ghost use Rattle.ct_operators.specs.Building.{HoldsWhere};
ghost use Rattle.ct_operators.specs.Placing.{ArePartsOf, holds_for};
ghost use Rattle.ct_operators.specs.Refusals.{is_full};
ghost use Rattle.ct_operators.specs.Tables.{IsRow, AreRows};
ghost use Rattle.ct_operators.specs.Terms.{TermOfRow, IsPlaced};
ghost use Rattle.ct_update.specs.Needing.{IsNeeded};
ghost use Rattle.ct_update.specs.Updating.{FitsUpdate, AreSplit};

use crate::needing::{never_holds, pairs_needed};
use ct_arena::{Arena, Full, Site};
use ct_condition::{Interner, and, not};
use ct_operators::{RowSource, TableError, on_row};
use ct_word::{CRow, FALSE_PLACE};
use ct_worlds::below;
use std::alloc::{AllocError, Global};

/// Room for so many places.
fn room(alloc: Global, long: usize) -> Result<Vec<u32>, AllocError>
    ensures { IfOk result (λ room. length room.items ≡ long) }
{
    Ok(vec![in alloc; 0; long]?)
}

/// The conditions that a row is shown and another does not hold for it, and that it is shown and the other does. With the
/// other come the places below it, and equalities that it needs: where one of them is of different constants on the row,
/// no word is looked for. In `put` is room for a place for each of those places.
fn split<N: Site, I: Interner<N>>(
    arena: &Arena<N>,
    pass: &mut I,
    cond: u32,
    places: &[u32],
    pairs: &[(u32, u32)],
    row: &CRow,
    put: &mut [u32],
) -> Result<(u32, u32), Full>
    requires row { IsRow (I.list pass.old) (length row.now.cells) row.now }
    requires cond { IsTrue (is_place_of (I.list pass.old) class.Cond cond) }
    requires parts { ArePartsOf (I.list pass.old) cond places.now }
    requires pairs { All (IsNeeded (I.list pass.old) cond) pairs.now }
    requires long { length put.old ≡ length places.now }
    ensures stays { IfOk result (λ conds. HoldsWhere (I.list pass.new) conds.0 (λ v. holds_at v (condition_at (I.list pass.old) row.now.cond) && not (holds_for (I.list pass.old) cond row.now.cells v))) }
    ensures goes { IfOk result (λ conds. HoldsWhere (I.list pass.new) conds.1 (λ v. holds_at v (condition_at (I.list pass.old) row.now.cond) && holds_for (I.list pass.old) cond row.now.cells v)) }
    ensures terms { IfOk result (λ conds. All (λ place. TermsFrom (I.list pass.new) place (λ t. TermOfRow (I.list pass.old) row.now t ⊎ IsPlaced (I.list pass.old) cond row.now.cells t)) (conds.0 ∷ conds.1 ∷ [])) }
    ensures writes { Writes I.list I.made I.kept I.lent N.log.cap pass.old pass.new (ops (condition_at (I.list pass.old) cond) + 3) (is_err result) }
    ensures long { length put.new ≡ length put.old }
{
    if never_holds(pass.words(), pairs, row.cells.as_slice()) {
        return Ok((row.cond, FALSE_PLACE));
    }
    let met = on_row(arena, pass, cond, places, put, row.cells.as_slice())?;
    let missed = not(arena, pass, met)?;
    let stays = and(arena, pass, row.cond, missed)?;
    let goes = and(arena, pass, row.cond, met)?;
    Ok((stays, goes))
}

/// The two conditions of each row, as `split` makes them.
///
/// # Errors
/// `Full` where the log has no room for a condition, `Memory` where there is none for the list.
pub(crate) fn splits<N: Site, I: Interner<N>, T: RowSource>(
    alloc: Global,
    arena: &Arena<N>,
    pass: &mut I,
    table: &T,
    cond: u32,
) -> Result<Vec<(u32, u32)>, TableError>
    requires rows { AreRows (I.list pass.old) (length (T.table table.now).columns) (T.table table.now).rows }
    requires cond { IsTrue (is_place_of (I.list pass.old) class.Cond cond) }
    ensures split { (sets : List (ℕ × ℕ)) → FitsUpdate (I.list pass.old) (length (T.table table.now).columns) sets cond → IfOk result (λ conds. AreSplit (I.list pass.old) (I.list pass.new) (length (T.table table.now).columns) sets cond (T.table table.now).rows conds.items) }
    ensures writes { Writes I.list I.made I.kept I.lent N.log.cap pass.old pass.new (length (T.table table.now).rows * (ops (condition_at (I.list pass.old) cond) + 3)) (is_full result) }
{
    let _ = pass.words();
    let places = below(alloc, pass.words(), &[cond])?;
    let pairs = pairs_needed(alloc, pass.words(), cond)?;
    let mut put = room(alloc, places.len())?;
    let mut conds = Vec::with_capacity(alloc, table.len())?;
    for nth in 0..table.len() {
        let row = table.row(nth);
        let _ = pass.words();
        let both = split(
            arena,
            pass,
            cond,
            places.as_slice(),
            pairs.as_slice(),
            row,
            put.as_mut_slice(),
        )?;
        conds.push(both)?;
    }
    Ok(conds)
}
