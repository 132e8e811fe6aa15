// The insertion of rows, put into the log word by word.

ghost use Rattle.std.specs.Prelude.{◌<◌, ◌+◌, ◌^◌, [], ◌∷◌, ◌++◌, map, length, sum_by, All, IfOk, IsTrue, is_err};
ghost use Rattle.ct_word.specs.declared.kinds.Class.TheVariants as class;
ghost use Rattle.ct_word.specs.Change.{Insert};
ghost use Rattle.ct_word.specs.Reading.{IsRow, IsChangeList, term_at, condition_at, plain_crow, change_list_at};
ghost use Rattle.ct_word.specs.Stands.{StandsAt};
ghost use Rattle.ct_word.specs.WellFormed.{is_place_of};
ghost use Rattle.ct_query.specs.Bounds.{characters};
ghost use Rattle.ct_history.specs.Encodes.{row_words};
ghost use Rattle.ct_condition.specs.Writes.{PassWrites};
ghost use Rattle.ct_history.specs.Places.{cells_at, rows_at};
ghost use Rattle.ct_history.specs.Rows.{AreRowsAt, AreTerms, IsNoRow, IsRowOf, row_under};

use crate::changes::add;
use ct_arena::{Arena, Full, Pass, Site};
use ct_condition::{put, text};
use ct_word::{CRow, Kind};

/// The place of a row's cells, put behind the row without cells.
fn cells<N: Site>(
    arena: &Arena<N>,
    pass: &mut Pass<N>,
    start: u32,
    cells: &[u32],
) -> Result<u32, Full>
    requires start { IsNoRow pass.old.words start }
    requires terms { AreTerms pass.old.words cells.now }
    ensures stands { IfOk result (λ place. StandsAt pass.new.words place (IsRow (map (term_at pass.old.words) cells.now))) }
    ensures place { IfOk result (λ place. IsTrue (is_place_of pass.new.words class.Row place)) }
    ensures small { IfOk result (λ place. place < 2 ^ 28) }
    ensures writes { PassWrites N.log.cap pass.old pass.new (length cells.now) (is_err result) }
{
    // A pass has fewer words than a field can number, so each cell fits one.
    let _ = pass.words();
    let mut place = start;
    for cell in cells {
        place = put(arena, pass, Kind::RowCell, place, *cell)?;
    }
    Ok(place)
}

/// The places of the list without rows and of the row without cells.
pub(crate) fn no_rows<N: Site>(arena: &Arena<N>, pass: &mut Pass<N>) -> Result<(u32, u32), Full>
    ensures rows { IfOk result (λ places. AreRowsAt pass.new.words places.0 []) }
    ensures start { IfOk result (λ places. IsNoRow pass.new.words places.1) }
    ensures writes { PassWrites N.log.cap pass.old pass.new 2 (is_err result) }
{
    let list = put(arena, pass, Kind::RowsEnd, 0, 0)?;
    let start = put(arena, pass, Kind::RowEnd, 0, 0)?;
    Ok((list, start))
}

/// The place of a list of rows with the row of these cells under a condition added.
#[tactic(auto, using(ct_word::proofs::Prefixes::place_in_prefix))]
pub(crate) fn put_row<N: Site>(
    arena: &Arena<N>,
    pass: &mut Pass<N>,
    list: u32,
    cells: u32,
    cond: u32,
) -> Result<u32, Full>
    requires list { IsTrue (is_place_of pass.old.words class.RowList list) }
    requires small { list < 2 ^ 28 }
    requires cells { IsTrue (is_place_of pass.old.words class.Row cells) }
    requires short { cells < 2 ^ 28 }
    requires cond { IsTrue (is_place_of pass.old.words class.Cond cond) }
    requires within { cond < 2 ^ 28 }
    ensures rows { IfOk result (λ place. AreRowsAt pass.new.words place (rows_at pass.old.words list ++ row_under (condition_at pass.old.words cond) (cells_at pass.old.words cells) ∷ [])) }
    ensures writes { PassWrites N.log.cap pass.old pass.new 2 (is_err result) }
{
    let row = put(arena, pass, Kind::ConditionalRow, cells, cond)?;
    let place = put(arena, pass, Kind::Rows, list, row)?;
    Ok(place)
}

/// The place of a list of rows with a row added.
#[tactic(auto, using(ct_word::proofs::Prefixes::place_in_prefix))]
fn add_row<N: Site>(
    arena: &Arena<N>,
    pass: &mut Pass<N>,
    list: u32,
    start: u32,
    row: &CRow,
) -> Result<u32, Full>
    requires list { IsTrue (is_place_of pass.old.words class.RowList list) }
    requires small { list < 2 ^ 28 }
    requires start { IsNoRow pass.old.words start }
    requires row { IsRowOf pass.old.words row.now }
    ensures rows { IfOk result (λ place. AreRowsAt pass.new.words place (rows_at pass.old.words list ++ plain_crow pass.old.words row.now ∷ [])) }
    ensures writes { PassWrites N.log.cap pass.old pass.new (row_words row.now) (is_err result) }
{
    // As for the cells, the condition fits a field.
    let _ = pass.words();
    let row_of_cells = cells(arena, pass, start, row.cells.as_slice())?;
    put_row(arena, pass, list, row_of_cells, row.cond)
}

/// The place of a list of rows.
fn row_list<N: Site>(arena: &Arena<N>, pass: &mut Pass<N>, rows: &[CRow]) -> Result<u32, Full>
    requires rows { All (IsRowOf pass.old.words) rows.now }
    ensures rows { IfOk result (λ place. AreRowsAt pass.new.words place (map (plain_crow pass.old.words) rows.now)) }
    ensures writes { PassWrites N.log.cap pass.old pass.new (sum_by row_words rows.now + 2) (is_err result) }
{
    let (mut place, start) = no_rows(arena, pass)?;
    for row in rows {
        place = add_row(arena, pass, place, start, row)?;
    }
    Ok(place)
}

/// The place of a change list with the insertion of the rows at a place added.
#[tactic(auto, using(ct_word::proofs::Prefixes::place_in_prefix))]
pub(crate) fn insert_list<N: Site>(
    arena: &Arena<N>,
    pass: &mut Pass<N>,
    list: u32,
    name: &str,
    rows: u32,
) -> Result<u32, Full>
    requires small { list < 2 ^ 28 }
    requires list { IsTrue (is_place_of pass.old.words class.ChangeList list) }
    requires rows { IsTrue (is_place_of pass.old.words class.RowList rows) }
    requires short { rows < 2 ^ 28 }
    ensures stands { IfOk result (λ place. StandsAt pass.new.words place (IsChangeList (change_list_at pass.old.words list ++ Insert name.now (rows_at pass.old.words rows) ∷ []))) }
    ensures place { IfOk result (λ place. IsTrue (is_place_of pass.new.words class.ChangeList place)) }
    ensures small { IfOk result (λ place. place < 2 ^ 28) }
    ensures writes { PassWrites N.log.cap pass.old pass.new (characters name.now + 3) (is_err result) }
{
    let table = text(arena, pass, name)?;
    add(arena, pass, list, Kind::Insert, table, rows)
}

/// The place of a change list with the insertion of rows into a table added.
///
/// # Errors
/// `Full` where the log has no room for a word of it.
#[tactic(auto, using(ct_word::proofs::Prefixes::place_in_prefix))]
pub fn insert<N: Site>(
    arena: &Arena<N>,
    pass: &mut Pass<N>,
    list: u32,
    name: &str,
    rows: &[CRow],
) -> Result<u32, Full>
    requires small { list < 2 ^ 28 }
    requires list { IsTrue (is_place_of pass.old.words class.ChangeList list) }
    requires rows { All (IsRowOf pass.old.words) rows.now }
    ensures stands { IfOk result (λ place. StandsAt pass.new.words place (IsChangeList (change_list_at pass.old.words list ++ Insert name.now (map (plain_crow pass.old.words) rows.now) ∷ []))) }
    ensures place { IfOk result (λ place. IsTrue (is_place_of pass.new.words class.ChangeList place)) }
    ensures small { IfOk result (λ place. place < 2 ^ 28) }
    ensures writes { PassWrites N.log.cap pass.old pass.new (sum_by row_words rows.now + characters name.now + 5) (is_err result) }
{
    let list_of_rows = row_list(arena, pass, rows)?;
    insert_list(arena, pass, list, name, list_of_rows)
}
