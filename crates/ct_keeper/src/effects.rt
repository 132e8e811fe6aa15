// What one change does to tables and to the global condition: found and made before anything is touched.

ghost use Rattle.std.specs.Prelude.{◌≡◌, ◌+◌, ◌*◌, ℕ, List, [], false, length, map, All, IfOk, IsTrue};
ghost use Rattle.ct_word.specs.declared.kinds.Class.TheVariants as class;
ghost use Rattle.ct_word.specs.Change.{Insert, Delete, Update};
ghost use Rattle.ct_word.specs.Reading.{condition_at, plain_crow};
ghost use Rattle.ct_word.specs.WellFormed.{is_place_of};
ghost use Rattle.ct_query.specs.Bounds.{ops};
ghost use Rattle.ct_query.specs.Fits.{AreColumnsBelow, FitsChange};
ghost use Rattle.ct_condition.specs.Writes.{Writes};
ghost use Rattle.ct_history.specs.Rows.{IsRowOf};
ghost use Rattle.ct_history.specs.Written.{IsWritten, plain_set, plain_written};
ghost use Rattle.ct_history.specs.declared.written.Written.TheVariants as written;
ghost use Rattle.ct_table.specs.Denotes.{TableView, find_table, heading_of};
ghost use Rattle.ct_operators.specs.Refusals.{is_full};
ghost use Rattle.ct_operators.specs.Tables.{AreRows};
ghost use Rattle.ct_update.specs.Revising.{FitsRevision, revised};
ghost use Rattle.ct_table.specs.declared.pending.Growth.TheVariants as growth;
ghost use Rattle.ct_keeper.specs.declared.effects.Effect.TheVariants as effect;
ghost use Rattle.ct_keeper.specs.Effects.{DoesChange, FitsEffect, IsNarrowed, effect_words, rows_found};

use ct_arena::{Arena, Site};
use ct_condition::{Interner, and};
use ct_history::Written;
use ct_table::{CRow, CTable, Db, Growth, SharedTable, TableError, delete, insertions};
use ct_update::{Revision, revise};
use ct_word::{List, Text};
use std::alloc::{AllocError, Global};

/// What a change does: it lets the tables grow, or puts another condition in the place of the global one.
#[derive(Drop)]
pub enum Effect {
    Grows(Growth),
    Narrows(u32),
}

/// What a creation does: the tables grow by a new one without rows.
///
/// # Errors
/// `Memory` where there is none for the names.
fn created(alloc: Global, name: &Text, columns: &List<Text>) -> Result<Effect, TableError>
    ensures fits { (db : List TableView) → IfOk result (FitsEffect db) }
    ensures is { IfOk result (λ made. made ≡ effect.Grows (growth.Table name.now (record { columns = columns.now; rows = [] }))) }
    ensures full { is_full result ≡ false }
{
    let name = name.clone()?;
    let columns = columns.clone()?;
    let table = CTable {
        columns,
        rows: List::new(alloc),
    };
    let table = SharedTable::make(alloc, table)?;
    Ok(Effect::Grows(Growth::Table { name, table }))
}

/// What an insertion does: the table of this name grows by further rows.
///
/// # Errors
/// `Full` where the log has no room for a condition, `Memory` where there is none for the rows.
fn inserted<N: Site, I: Interner<N>>(
    alloc: Global,
    arena: &Arena<N>,
    pass: &mut I,
    db: &Db,
    name: &Text,
    rows: &[CRow],
) -> Result<Effect, TableError>
    requires tables { All (λ t. AreRows (I.list pass.old) (length t.columns) t.rows) db.now }
    requires written { All (IsRowOf (I.list pass.old)) rows.now }
    requires fitting { FitsChange (map heading_of db.now) (Insert name.now (map (plain_crow (I.list pass.old)) rows.now)) }
    ensures fits { IfOk result (FitsEffect db.now) }
    ensures does { (global : ℕ) → IfOk result (DoesChange (I.list pass.old) (I.list pass.new) db.now global (written.Insert name.now rows.now)) }
    ensures writes { Writes I.list I.made I.kept I.lent N.log.cap pass.old pass.new (length rows.now) (is_full result) }
{
    let _ = pass.words();
    let Some(table) = db.get(name) else {
        unreachable!()
    };
    let name = name.clone()?;
    let puts = insertions(alloc, arena, pass, table, rows)?;
    Ok(Effect::Grows(Growth::Rows { name, puts }))
}

/// What a deletion does: the table of this name is put without the rows for which a condition holds.
///
/// # Errors
/// `Full` where the log has no room for a condition, `Memory` where there is none for the rows.
fn deleted<N: Site, I: Interner<N>>(
    alloc: Global,
    arena: &Arena<N>,
    pass: &mut I,
    db: &Db,
    name: &Text,
    cond: u32,
) -> Result<Effect, TableError>
    requires tables { All (λ t. AreRows (I.list pass.old) (length t.columns) t.rows) db.now }
    requires written { IsTrue (is_place_of (I.list pass.old) class.Cond cond) }
    requires fitting { FitsChange (map heading_of db.now) (Delete name.now (condition_at (I.list pass.old) cond)) }
    ensures fits { IfOk result (FitsEffect db.now) }
    ensures does { (global : ℕ) → IfOk result (DoesChange (I.list pass.old) (I.list pass.new) db.now global (written.Delete name.now cond)) }
    ensures writes { Writes I.list I.made I.kept I.lent N.log.cap pass.old pass.new (rows_found (find_table db.now name.now) * (ops (condition_at (I.list pass.old) cond) + 2)) (is_full result) }
{
    let _ = pass.words();
    let Some(table) = db.get(name) else {
        unreachable!()
    };
    let name = name.clone()?;
    let spared = delete(alloc, arena, pass, table, cond);
    // The words are well formed and within the capacity, also where no table was made.
    let _ = pass.words();
    let rest = spared?;
    let table = SharedTable::make(alloc, rest)?;
    Ok(Effect::Grows(Growth::Table { name, table }))
}

/// The table after a revision.
///
/// # Errors
/// `AllocError` where there is no memory for it.
fn after_revision(
    alloc: Global,
    table: &SharedTable,
    revision: Revision,
) -> Result<SharedTable, AllocError>
    requires { FitsRevision table.now revision }
    ensures { IfOk result (λ s. s ≡ revised table.now revision) }
{
    match revision {
        Revision::Rows(rows) => table.with_rows(alloc, rows),
        Revision::Table(table) => SharedTable::make(alloc, table),
    }
}

/// What an update does: the table of this name is put with the sets made on its rows where a condition holds for them.
///
/// # Errors
/// `Full` where the log has no room for a condition, `Memory` where there is none for the rows.
fn updated<N: Site, I: Interner<N>>(
    alloc: Global,
    arena: &Arena<N>,
    pass: &mut I,
    db: &Db,
    name: &Text,
    sets: &[(u32, u32)],
    cond: u32,
) -> Result<Effect, TableError>
    requires tables { All (λ t. AreRows (I.list pass.old) (length t.columns) t.rows) db.now }
    requires sets { All (λ s. IsTrue (is_place_of (I.list pass.old) class.Term s.1)) sets.now }
    requires written { IsTrue (is_place_of (I.list pass.old) class.Cond cond) }
    requires fitting { FitsChange (map heading_of db.now) (Update name.now (map (plain_set (I.list pass.old)) sets.now) (condition_at (I.list pass.old) cond)) }
    ensures fits { IfOk result (FitsEffect db.now) }
    ensures does { (global : ℕ) → IfOk result (DoesChange (I.list pass.old) (I.list pass.new) db.now global (written.Update name.now sets.now cond)) }
    ensures writes { Writes I.list I.made I.kept I.lent N.log.cap pass.old pass.new (rows_found (find_table db.now name.now) * (ops (condition_at (I.list pass.old) cond) + 5)) (is_full result) }
{
    let _ = pass.words();
    let Some(table) = db.get(name) else {
        unreachable!()
    };
    let name = name.clone()?;
    let made = revise(alloc, arena, pass, table, sets, cond);
    // The words are well formed and within the capacity, also where no table was made.
    let _ = pass.words();
    let revision = made?;
    let table = after_revision(alloc, table, revision)?;
    Ok(Effect::Grows(Growth::Table { name, table }))
}

/// The place of the conjunction of the global condition and a further one.
///
/// # Errors
/// `Full` where the log has no room for its word.
fn narrowed<N: Site, I: Interner<N>>(
    arena: &Arena<N>,
    pass: &mut I,
    global: u32,
    cond: u32,
) -> Result<u32, TableError>
    requires global { IsTrue (is_place_of (I.list pass.old) class.Cond global) }
    requires written { IsTrue (is_place_of (I.list pass.old) class.Cond cond) }
    requires fitting { AreColumnsBelow 0 (condition_at (I.list pass.old) cond) }
    ensures narrowed { IfOk result (IsNarrowed (I.list pass.old) (I.list pass.new) global cond) }
    ensures writes { Writes I.list I.made I.kept I.lent N.log.cap pass.old pass.new 1 (is_full result) }
{
    let _ = pass.words();
    Ok(and(arena, pass, global, cond)?)
}

/// What a change does to these tables and the global condition at this place. The tables stay as they are; the words of
/// its conditions are made.
///
/// # Errors
/// `Full` where the log has no room for a condition, `Memory` where there is none for the rows.
pub fn effect_of<N: Site, I: Interner<N>>(
    alloc: Global,
    arena: &Arena<N>,
    pass: &mut I,
    db: &Db,
    global: u32,
    change: &Written,
) -> Result<Effect, TableError>
    requires tables { All (λ t. AreRows (I.list pass.old) (length t.columns) t.rows) db.now }
    requires global { IsTrue (is_place_of (I.list pass.old) class.Cond global) }
    requires written { IsWritten (I.list pass.old) change.now }
    requires fitting { FitsChange (map heading_of db.now) (plain_written (I.list pass.old) change.now) }
    ensures fits { IfOk result (FitsEffect db.now) }
    ensures does { IfOk result (DoesChange (I.list pass.old) (I.list pass.new) db.now global change.now) }
    ensures writes { Writes I.list I.made I.kept I.lent N.log.cap pass.old pass.new (effect_words db.now (plain_written (I.list pass.old) change.now)) (is_full result) }
{
    let _ = pass.words();
    match change {
        Written::Create { name, columns } => created(alloc, name, columns),
        Written::Insert { name, rows } => inserted(alloc, arena, pass, db, name, rows.as_slice()),
        Written::Delete { name, cond } => deleted(alloc, arena, pass, db, name, *cond),
        Written::Update { name, sets, cond } => updated(
            alloc,
            arena,
            pass,
            db,
            name,
            sets.as_slice(),
            *cond,
        ),
        Written::Assert { cond } => Ok(Effect::Narrows(narrowed(arena, pass, global, *cond)?)),
    }
}
