// What rows are to be inserted into a table: found and made before it is touched.

ghost use Rattle.std.specs.Prelude.{◌≡◌, ◌≢◌, ◌≤◌, ◌<◌, ◌+◌, ◌++◌, [], ◌∷◌, length, All, IfOk, OnOk, IsTrue, is_err};
ghost use Rattle.ct_word.specs.declared.kinds.Class.TheVariants as class;
ghost use Rattle.ct_word.specs.WellFormed.{is_place_of};
ghost use Rattle.ct_condition.specs.Truth.{HasTruth, or_at};
ghost use Rattle.ct_condition.specs.Terms.{TermsFrom, BelowEither};
ghost use Rattle.ct_condition.specs.Writes.{Writes};
ghost use Rattle.ct_operators.specs.Tables.{IsRow, AreRows};
ghost use Rattle.ct_operators.specs.Merging.{rows_of, Merged};
ghost use Rattle.ct_operators.specs.Refusals.{is_full};
ghost use Rattle.ct_table.specs.Growing.{find, put_each, grown, Apart, Fits, Joins, AreGathered, AreInserted};

use crate::stored::{Put, Stored};
use ct_arena::{Arena, Full, Site};
use ct_condition::{Interner, or};
use ct_operators::{TableError, under};
use ct_word::{CRow, FALSE_PLACE, List};
use indexmap::IndexMap;
use std::alloc::{AllocError, Global};

/// The place of the disjunction of two conditions; the first of them where the disjunction is the word false.
fn joined<N: Site, I: Interner<N>>(
    arena: &Arena<N>,
    pass: &mut I,
    present: u32,
    cond: u32,
) -> Result<u32, Full>
    requires present { IsTrue (is_place_of (I.list pass.old) class.Cond present) }
    requires cond { IsTrue (is_place_of (I.list pass.old) class.Cond cond) }
    ensures truth { IfOk result (λ place. HasTruth (I.list pass.new) place (or_at (I.list pass.old) present cond)) }
    ensures terms { IfOk result (λ place. TermsFrom (I.list pass.new) place (BelowEither (I.list pass.old) present cond)) }
    ensures possible { IfOk result (λ place. present ≢ 1 → place ≢ 1) }
    ensures writes { Writes I.list I.made I.kept I.lent N.log.cap pass.old pass.new 1 (is_err result) }
{
    let both = or(arena, pass, present, cond)?;
    let _ = pass.words();
    if both == FALSE_PLACE {
        return Ok(present);
    }
    Ok(both)
}

/// The condition at these cells: that which was put there, else that of the table's row.
fn present(pending: &IndexMap<List<u32>, u32>, stored: &Stored, cells: &List<u32>) -> Option<u32>
    requires { Apart pending.now.entries }
    ensures { result ≡ find cells.now (put_each stored.now.entries pending.now.entries) }
{
    match pending.get(cells) {
        Some(cond) => Some(*cond),
        None => stored.find(cells),
    }
}

/// The condition of a row that is to be inserted, joined to the one that its cells have.
fn joint<N: Site, I: Interner<N>>(
    pending: &IndexMap<List<u32>, u32>,
    arena: &Arena<N>,
    pass: &mut I,
    stored: &Stored,
    row: &CRow,
) -> Result<u32, Full>
    requires rows { All (IsRow (I.list pass.old) (length row.now.cells)) (rows_of (put_each stored.now.entries pending.now.entries)) }
    requires row { IsRow (I.list pass.old) (length row.now.cells) row.now }
    requires apart { Apart pending.now.entries }
    ensures joins { IfOk result (Joins (I.list pass.old) (I.list pass.new) (put_each stored.now.entries pending.now.entries) row.now) }
    ensures writes { Writes I.list I.made I.kept I.lent N.log.cap pass.old pass.new 1 (is_err result) }
{
    let _ = pass.words();
    match present(pending, stored, &row.cells) {
        Some(first) => joined(arena, pass, first, row.cond),
        None => Ok(row.cond),
    }
}

/// Puts a row among those that are to be inserted.
fn insert_row<N: Site, I: Interner<N>>(
    pending: &mut IndexMap<List<u32>, u32>,
    arena: &Arena<N>,
    pass: &mut I,
    stored: &Stored,
    row: &CRow,
) -> Result<(), TableError>
    requires rows { All (IsRow (I.list pass.old) (length row.now.cells)) (rows_of (put_each stored.now.entries pending.old.entries)) }
    requires row { IsRow (I.list pass.old) (length row.now.cells) row.now }
    requires possible { All (λ r. r.cond ≢ 1) (rows_of stored.now.entries) }
    requires apart { Apart pending.old.entries }
    requires fits { Fits stored.now.entries pending.old.entries }
    ensures merged { OnOk result (Merged (I.list pass.old) (I.list pass.new) (rows_of (put_each stored.now.entries pending.old.entries)) row.now (rows_of (put_each stored.now.entries pending.new.entries))) }
    ensures apart { OnOk result (Apart pending.new.entries) }
    ensures fits { OnOk result (Fits stored.now.entries pending.new.entries) }
    ensures writes { Writes I.list I.made I.kept I.lent N.log.cap pass.old pass.new 1 (is_full result) }
{
    let cond = joint(pending, arena, pass, stored, row)?;
    let new = under(row, cond)?;
    pending.insert(new.cells, new.cond)?;
    Ok(())
}

/// The conditions that have been put at cells, each ready to be moved into the table.
fn ready(alloc: Global, pending: IndexMap<List<u32>, u32>) -> Result<Vec<Put>, AllocError>
    ensures { IfOk result (λ puts. puts.items ≡ pending.entries) }
{
    let mut puts = Vec::with_capacity(alloc, pending.len())?;
    for (cells, cond) in pending {
        puts.push(Put::new(alloc, cells, cond)?)?;
    }
    Ok(puts)
}

/// The condition of the only row that is to be inserted, joined to the one that its cells have, ready to be moved into the
/// table. Most insertions have one row, and commits wait for one another here: no map is made for it.
///
/// # Errors
/// As `prepared` has them.
fn gathered_one<N: Site, I: Interner<N>>(
    alloc: Global,
    arena: &Arena<N>,
    pass: &mut I,
    stored: &Stored,
    row: &CRow,
) -> Result<Vec<Put>, TableError>
    requires table { AreRows (I.list pass.old) (length stored.now.columns) (rows_of stored.now.entries) }
    requires row { IsRow (I.list pass.old) (length stored.now.columns) row.now }
    ensures gathered { IfOk result (λ out. AreGathered (I.list pass.old) (I.list pass.new) (length stored.now.columns) stored.now.entries (row.now ∷ []) out.items) }
    ensures writes { Writes I.list I.made I.kept I.lent N.log.cap pass.old pass.new 1 (is_full result) }
{
    let _ = pass.words();
    let none = IndexMap::new(alloc);
    let cond = joint(&none, arena, pass, stored, row)?;
    drop(none);
    let new = under(row, cond)?;
    let put = Put::new(alloc, new.cells, new.cond)?;
    let mut puts = Vec::with_capacity(alloc, 1)?;
    puts.push_reserved(put);
    Ok(puts)
}

/// The conditions of the rows that are to be inserted, each joined to the one that its cells have, ready to be moved into
/// the table.
///
/// # Errors
/// As `prepared` has them.
fn gathered<N: Site, I: Interner<N>>(
    alloc: Global,
    arena: &Arena<N>,
    pass: &mut I,
    stored: &Stored,
    rows: &[CRow],
) -> Result<Vec<Put>, TableError>
    requires table { AreRows (I.list pass.old) (length stored.now.columns) (rows_of stored.now.entries) }
    requires rows { All (IsRow (I.list pass.old) (length stored.now.columns)) rows.now }
    ensures gathered { IfOk result (λ out. AreGathered (I.list pass.old) (I.list pass.new) (length stored.now.columns) stored.now.entries rows.now out.items) }
    ensures writes { Writes I.list I.made I.kept I.lent N.log.cap pass.old pass.new (length rows.now) (is_full result) }
{
    let _ = pass.words();
    if let [row] = rows {
        return gathered_one(alloc, arena, pass, stored, row);
    }
    let mut pending = IndexMap::new(alloc);
    for row in rows {
        insert_row(&mut pending, arena, pass, stored, row)?;
    }
    Ok(ready(alloc, pending)?)
}

/// The conditions to put at cells so that a table gets these rows. A row whose cells are there already is merged into
/// the first of them, by the disjunction of their conditions, and rows under the word false are left out. The table
/// stays as it is; `Db::growing` puts them in.
///
/// # Errors
/// `Full` where the log has no room for a condition, `Memory` where there is none for the rows.
pub(crate) fn prepared<N: Site, I: Interner<N>>(
    alloc: Global,
    arena: &Arena<N>,
    pass: &mut I,
    stored: &Stored,
    rows: &[CRow],
) -> Result<Vec<Put>, TableError>
    requires table { AreRows (I.list pass.old) (length stored.now.columns) (rows_of stored.now.entries) }
    requires rows { All (IsRow (I.list pass.old) (length stored.now.columns)) rows.now }
    ensures inserted { IfOk result (λ out. AreInserted (I.list pass.old) (I.list pass.new) (length stored.now.columns) (rows_of stored.now.entries) rows.now (rows_of (grown stored.now.entries out.items))) }
    ensures writes { Writes I.list I.made I.kept I.lent N.log.cap pass.old pass.new (length rows.now) (is_full result) }
{
    let _ = pass.words();
    let puts = gathered(alloc, arena, pass, stored, rows)?;
    let _ = pass.words();
    Ok(puts)
}
