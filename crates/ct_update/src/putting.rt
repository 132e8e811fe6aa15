// Rows gathered that come of others by an update.

ghost use Rattle.std.specs.Prelude.{◌≡◌, ◌<◌, ◌*◌, ◌∷◌, [], List, length, filter, All, IfOk, OnOk, IsTrue};
ghost use Rattle.ct_word.specs.declared.kinds.Class.TheVariants as class;
ghost use Rattle.ct_word.specs.declared.values.CRow.{CRow};
ghost use Rattle.ct_word.specs.WellFormed.{IsWellFormed, is_place_of};
ghost use Rattle.ct_condition.specs.Writes.{Writes};
ghost use Rattle.ct_operators.specs.Merging.{AreGathered, IsGathered, is_possible};
ghost use Rattle.ct_operators.specs.Refusals.{is_full};
ghost use Rattle.ct_operators.specs.Tables.{IsRow};
ghost use Rattle.ct_update.specs.Updating.{updated_places, halves_of, all_halves, PutsIn};

use ct_arena::{Arena, Site};
use ct_condition::Interner;
use ct_operators::{CTable, Gathering, RowSource, TableError, cell_for, names, under};
use ct_word::{CRow, FALSE_PLACE, List};
use std::alloc::{AllocError, Global};

/// A copy of cells.
fn copy(cells: &List<u32>) -> Result<Vec<u32>, AllocError>
    ensures { IfOk result (λ copy. copy.items ≡ cells.now) }
{
    let copy = cells.clone()?;
    Ok(copy.into_vec())
}

/// The cells with sets made on them: each position gets the cell that stands for its term. All are taken from the cells
/// as they were; of two sets of one position the later counts.
pub(crate) fn with_sets(
    words: &[u64],
    sets: &[(u32, u32)],
    cells: &List<u32>,
) -> Result<List<u32>, AllocError>
    requires formed { IsWellFormed words.now }
    requires positions { All (λ s. s.0 < length cells.now) sets.now }
    requires terms { All (λ s. IsTrue (is_place_of words.now class.Term s.1)) sets.now }
    requires cells { All (λ p. IsTrue (is_place_of words.now class.Term p)) cells.now }
    ensures { IfOk result (λ out. out ≡ updated_places words.now sets.now cells.now) }
{
    let mut out = copy(cells)?;
    for number in 0..sets.len() {
        let (position, term) = sets[number];
        out[position as usize] = cell_for(words, term, cells.as_slice());
    }
    Ok(List::from_vec(out))
}

/// Puts in a row as it was, under a condition that is not the word false. Under the word false nothing is made.
fn put_as_it_was<N: Site, I: Interner<N>>(
    gathering: &mut Gathering,
    arena: &Arena<N>,
    pass: &mut I,
    row: &CRow,
    cond: u32,
) -> Result<(), TableError>
    requires rows { All (IsRow (I.list pass.old) (length row.now.cells)) gathering.old }
    requires row { IsRow (I.list pass.old) (length row.now.cells) (record { cells = row.now.cells; cond = cond }) }
    ensures puts { OnOk result (PutsIn (I.list pass.old) (I.list pass.new) (length row.now.cells) (record { cells = row.now.cells; cond = cond } ∷ []) gathering.old gathering.new) }
    ensures writes { Writes I.list I.made I.kept I.lent N.log.cap pass.old pass.new 1 (is_full result) }
{
    let _ = pass.words();
    if cond == FALSE_PLACE {
        return Ok(());
    }
    gathering.add(arena, pass, under(row, cond)?)?;
    Ok(())
}

/// Puts in the cells of a row with sets made on them, under a condition that is not the word false. Under the word false
/// nothing is made.
fn put_with_sets<N: Site, I: Interner<N>>(
    gathering: &mut Gathering,
    arena: &Arena<N>,
    pass: &mut I,
    sets: &[(u32, u32)],
    row: &CRow,
    cond: u32,
) -> Result<(), TableError>
    requires rows { All (IsRow (I.list pass.old) (length row.now.cells)) gathering.old }
    requires positions { All (λ s. s.0 < length row.now.cells) sets.now }
    requires terms { All (λ s. IsTrue (is_place_of (I.list pass.old) class.Term s.1)) sets.now }
    requires cells { All (λ p. IsTrue (is_place_of (I.list pass.old) class.Term p)) row.now.cells }
    requires row { IsRow (I.list pass.old) (length row.now.cells) (record { cells = updated_places (I.list pass.old) sets.now row.now.cells; cond = cond }) }
    ensures puts { OnOk result (PutsIn (I.list pass.old) (I.list pass.new) (length row.now.cells) (record { cells = updated_places (I.list pass.old) sets.now row.now.cells; cond = cond } ∷ []) gathering.old gathering.new) }
    ensures writes { Writes I.list I.made I.kept I.lent N.log.cap pass.old pass.new 1 (is_full result) }
{
    let _ = pass.words();
    if cond == FALSE_PLACE {
        return Ok(());
    }
    let cells = with_sets(pass.words(), sets, &row.cells)?;
    gathering.add(arena, pass, CRow { cells, cond })?;
    Ok(())
}

/// Puts in the two rows that come of one: itself under the first of two conditions, and its cells with the sets under the
/// second.
fn put_halves<N: Site, I: Interner<N>>(
    gathering: &mut Gathering,
    arena: &Arena<N>,
    pass: &mut I,
    sets: &[(u32, u32)],
    row: &CRow,
    conds: (u32, u32),
) -> Result<(), TableError>
    requires gathered { (done : List CRow) × AreGathered (I.list pass.old) (length row.now.cells) done gathering.old }
    requires positions { All (λ s. s.0 < length row.now.cells) sets.now }
    requires terms { All (λ s. IsTrue (is_place_of (I.list pass.old) class.Term s.1)) sets.now }
    requires halves { All (IsRow (I.list pass.old) (length row.now.cells)) (halves_of (I.list pass.old) sets.now row.now conds) }
    ensures puts { OnOk result (PutsIn (I.list pass.old) (I.list pass.new) (length row.now.cells) (halves_of (I.list pass.old) sets.now row.now conds) gathering.old gathering.new) }
    ensures writes { Writes I.list I.made I.kept I.lent N.log.cap pass.old pass.new 2 (is_full result) }
{
    let _ = pass.words();
    let (stays, goes) = conds;
    put_as_it_was(gathering, arena, pass, row, stays)?;
    put_with_sets(gathering, arena, pass, sets, row, goes)?;
    Ok(())
}

/// The table of the two rows that come of each, under the two conditions that stand at its place. Rows with the same cells
/// are merged into the first of them, and nothing is made for a row under the word false.
///
/// # Errors
/// `Full` where the log has no room for a condition, `Memory` where there is none for the rows.
pub(crate) fn gathered<N: Site, I: Interner<N>, T: RowSource>(
    alloc: Global,
    arena: &Arena<N>,
    pass: &mut I,
    table: &T,
    sets: &[(u32, u32)],
    conds: &[(u32, u32)],
) -> Result<CTable, TableError>
    requires positions { All (λ s. s.0 < length (T.table table.now).columns) sets.now }
    requires terms { All (λ s. IsTrue (is_place_of (I.list pass.old) class.Term s.1)) sets.now }
    requires long { length conds.now ≡ length (T.table table.now).rows }
    requires halves { All (IsRow (I.list pass.old) (length (T.table table.now).columns)) (all_halves (I.list pass.old) sets.now (T.table table.now).rows conds.now) }
    ensures columns { IfOk result (λ out. out.columns ≡ (T.table table.now).columns) }
    ensures gathered { IfOk result (λ out. IsGathered (I.list pass.new) (length (T.table table.now).columns) (filter is_possible (all_halves (I.list pass.old) sets.now (T.table table.now).rows conds.now)) out.rows) }
    ensures writes { Writes I.list I.made I.kept I.lent N.log.cap pass.old pass.new (length (T.table table.now).rows * 2) (is_full result) }
{
    let _ = pass.words();
    let columns = names(table.columns())?;
    let mut gathering = Gathering::make(alloc, table.len())?;
    for nth in 0..table.len() {
        let row = table.row(nth);
        put_halves(&mut gathering, arena, pass, sets, row, conds[nth])?;
    }
    let _ = pass.words();
    Ok(gathering.finish(alloc, columns)?)
}
