// The change of an action, put into the log.

ghost use Rattle.std.specs.Prelude.{◌≡◌, ◌≤◌, ◌<◌, ◌+◌, ◌^◌, [], ◌∷◌, ◌++◌, map, length, sum_by, All, IfOk, OnErr, IsTrue, is_err};
ghost use mathlib.Core.List.{IsPrefix};
ghost use Rattle.ct_word.specs.declared.kinds.Class.TheVariants as class;
ghost use Rattle.ct_word.specs.Change.{Assert};
ghost use Rattle.ct_word.specs.Reading.{IsRow, IsSetList, IsChangeList, change_list_at, condition_at};
ghost use Rattle.ct_word.specs.Stands.{StandsAt};
ghost use Rattle.ct_word.specs.WellFormed.{is_place_of};
ghost use Rattle.ct_query.specs.Bounds.{literal_words};
ghost use Rattle.ct_query.specs.Fields.{FitsFields, AreFittingOn};
ghost use Rattle.ct_query.specs.Fits.{FitsCell, FitsRows};
ghost use Rattle.ct_query.specs.Plain as plain;
ghost use Rattle.ct_query.specs.Pred.{condition_of};
ghost use Rattle.ct_query.specs.Views.{action_of};
ghost use Rattle.ct_history.specs.Encodes.{Adds, AreHanded, IsConditionOf, IsEncodable, condition_words, encode_words, set_words, term_row_words};
ghost use Rattle.ct_condition.specs.Writes.{PassWrites, kept_of};
ghost use Rattle.ct_history.specs.Places.{rows_at};
ghost use Rattle.ct_history.specs.Rows.{AreRowsAt, IsNoRow, IsRowOf, row_under};

use crate::changes::{add, create};
use crate::insertion::{insert, insert_list, no_rows, put_row};
use ct_arena::{Arena, Full, Pass, Site};
use ct_condition::{pred, put, term, text};
use ct_query::{Action, Pred};
use ct_word::{CRow, Kind, List, Term};

/// The place of a predicate, whose columns stay columns.
fn condition<N: Site>(arena: &Arena<N>, pass: &mut Pass<N>, p: &Pred) -> Result<u32, Full>
    requires fields { AreFittingOn 0 (condition_of p.now) }
    ensures is { IfOk result (λ place. IsConditionOf pass.new.words place (condition_of p.now)) }
    ensures writes { PassWrites N.log.cap pass.old pass.new (condition_words (condition_of p.now)) (is_err result) }
{
    let place = pred(arena, pass, p, &[])?;
    let _ = pass.words();
    Ok(place)
}

/// The place of a row of terms, put behind the row without cells.
fn term_cells<N: Site>(
    arena: &Arena<N>,
    pass: &mut Pass<N>,
    start: u32,
    cells: &[Term],
) -> Result<u32, Full>
    requires start { IsNoRow pass.old.words start }
    requires cells { All FitsCell cells.now }
    ensures stands { IfOk result (λ place. StandsAt pass.new.words place (IsRow cells.now)) }
    ensures place { IfOk result (λ place. IsTrue (is_place_of pass.new.words class.Row place)) }
    ensures small { IfOk result (λ place. place < 2 ^ 28) }
    ensures writes { PassWrites N.log.cap pass.old pass.new (sum_by literal_words cells.now + length cells.now) (is_err result) }
{
    // The words of a pass are well formed, and no more than the capacity.
    let _ = pass.words();
    let mut place = start;
    for cell in cells {
        let item = term(arena, pass, cell)?;
        place = put(arena, pass, Kind::RowCell, place, item)?;
    }
    Ok(place)
}

/// The place of a list of rows with a row of terms under a condition added.
#[tactic(auto, using(ct_word::proofs::Prefixes::place_in_prefix))]
fn add_terms<N: Site>(
    arena: &Arena<N>,
    pass: &mut Pass<N>,
    list: u32,
    start: u32,
    cells: &[Term],
    cond: u32,
) -> Result<u32, Full>
    requires list { IsTrue (is_place_of pass.old.words class.RowList list) }
    requires short { list < 2 ^ 28 }
    requires start { IsNoRow pass.old.words start }
    requires cells { All FitsCell cells.now }
    requires cond { IsTrue (is_place_of pass.old.words class.Cond cond) }
    requires small { cond < 2 ^ 28 }
    ensures rows { IfOk result (λ place. AreRowsAt pass.new.words place (rows_at pass.old.words list ++ row_under (condition_at pass.old.words cond) cells.now ∷ [])) }
    ensures writes { PassWrites N.log.cap pass.old pass.new (term_row_words cells.now) (is_err result) }
{
    let row = term_cells(arena, pass, start, cells)?;
    put_row(arena, pass, list, row, cond)
}

/// The place of a list of rows of terms, each under the same condition.
#[tactic(auto, using(ct_word::proofs::Prefixes::place_in_prefix))]
fn term_rows<N: Site>(
    arena: &Arena<N>,
    pass: &mut Pass<N>,
    rows: &[List<Term>],
    cond: u32,
) -> Result<u32, Full>
    requires rows { All (All FitsCell) rows.now }
    requires cond { IsTrue (is_place_of pass.old.words class.Cond cond) }
    requires small { cond < 2 ^ 28 }
    ensures rows { IfOk result (λ place. AreRowsAt pass.new.words place (map (row_under (condition_at pass.old.words cond)) rows.now)) }
    ensures writes { PassWrites N.log.cap pass.old pass.new (sum_by term_row_words rows.now + 2) (is_err result) }
{
    let (mut place, start) = no_rows(arena, pass)?;
    for row in rows {
        place = add_terms(arena, pass, place, start, row.as_slice(), cond)?;
    }
    Ok(place)
}

/// The place of a change list with the insertion of rows under a condition added.
#[tactic(auto, using(ct_word::proofs::Prefixes::place_in_prefix))]
fn insert_rows<N: Site>(
    arena: &Arena<N>,
    pass: &mut Pass<N>,
    list: u32,
    name: &str,
    rows: &[List<Term>],
    p: &Pred,
) -> Result<u32, Full>
    requires small { list < 2 ^ 28 }
    requires list { IsTrue (is_place_of pass.old.words class.ChangeList list) }
    requires rows { All (All FitsCell) rows.now }
    requires predicate { FitsRows 0 (condition_of p.now) }
    ensures adds { IfOk result (λ place. Adds pass.old.words pass.new.words list place (plain.InsertRows name.now rows.now (condition_of p.now)) []) }
    ensures place { IfOk result (λ place. IsTrue (is_place_of pass.new.words class.ChangeList place)) }
    ensures small { IfOk result (λ place. place < 2 ^ 28) }
    ensures writes { PassWrites N.log.cap pass.old pass.new (encode_words (plain.InsertRows name.now rows.now (condition_of p.now)) []) (is_err result) }
{
    let cond = condition(arena, pass, p)?;
    let list_of_rows = term_rows(arena, pass, rows, cond)?;
    insert_list(arena, pass, list, name, list_of_rows)
}

/// The place of a change list with a deletion added.
#[tactic(auto, using(ct_word::proofs::Prefixes::place_in_prefix))]
fn delete<N: Site>(
    arena: &Arena<N>,
    pass: &mut Pass<N>,
    list: u32,
    name: &str,
    p: &Pred,
) -> Result<u32, Full>
    requires small { list < 2 ^ 28 }
    requires list { IsTrue (is_place_of pass.old.words class.ChangeList list) }
    requires fields { AreFittingOn 0 (condition_of p.now) }
    ensures adds { IfOk result (λ place. Adds pass.old.words pass.new.words list place (plain.Delete name.now (condition_of p.now)) []) }
    ensures place { IfOk result (λ place. IsTrue (is_place_of pass.new.words class.ChangeList place)) }
    ensures small { IfOk result (λ place. place < 2 ^ 28) }
    ensures writes { PassWrites N.log.cap pass.old pass.new (encode_words (plain.Delete name.now (condition_of p.now)) []) (is_err result) }
{
    let cond = condition(arena, pass, p)?;
    let table = text(arena, pass, name)?;
    add(arena, pass, list, Kind::Delete, table, cond)
}

/// The place of a list of sets.
#[tactic(auto, using(ct_word::proofs::Prefixes::place_in_prefix))]
fn sets<N: Site>(arena: &Arena<N>, pass: &mut Pass<N>, sets: &[(u32, Term)]) -> Result<u32, Full>
    requires sets { All (λ s. (s.0 < 2 ^ 28) × FitsFields s.1) sets.now }
    ensures stands { IfOk result (λ place. StandsAt pass.new.words place (IsSetList sets.now)) }
    ensures place { IfOk result (λ place. IsTrue (is_place_of pass.new.words class.SetList place)) }
    ensures small { IfOk result (λ place. place < 2 ^ 28) }
    ensures writes { PassWrites N.log.cap pass.old pass.new (sum_by set_words sets.now + 1) (is_err result) }
{
    let mut place = put(arena, pass, Kind::SetsEnd, 0, 0)?;
    for set in sets {
        let item = term(arena, pass, &set.1)?;
        let word = put(arena, pass, Kind::Set, set.0, item)?;
        place = put(arena, pass, Kind::Sets, place, word)?;
    }
    Ok(place)
}

/// The place of a change list with an update added.
#[tactic(auto, using(ct_word::proofs::Prefixes::place_in_prefix))]
fn update<N: Site>(
    arena: &Arena<N>,
    pass: &mut Pass<N>,
    list: u32,
    name: &str,
    sets_of: &[(u32, Term)],
    p: &Pred,
) -> Result<u32, Full>
    requires small { list < 2 ^ 28 }
    requires list { IsTrue (is_place_of pass.old.words class.ChangeList list) }
    requires sets { All (λ s. (s.0 < 2 ^ 28) × FitsFields s.1) sets_of.now }
    requires fields { AreFittingOn 0 (condition_of p.now) }
    ensures adds { IfOk result (λ place. Adds pass.old.words pass.new.words list place (plain.Update name.now sets_of.now (condition_of p.now)) []) }
    ensures place { IfOk result (λ place. IsTrue (is_place_of pass.new.words class.ChangeList place)) }
    ensures small { IfOk result (λ place. place < 2 ^ 28) }
    ensures writes { PassWrites N.log.cap pass.old pass.new (encode_words (plain.Update name.now sets_of.now (condition_of p.now)) []) (is_err result) }
{
    let cond = condition(arena, pass, p)?;
    let list_of_sets = sets(arena, pass, sets_of)?;
    let body = put(arena, pass, Kind::UpdateBody, list_of_sets, cond)?;
    let table = text(arena, pass, name)?;
    add(arena, pass, list, Kind::Update, table, body)
}

/// The place of a change list with the assertion of the condition at a place added.
fn assert_at<N: Site>(
    arena: &Arena<N>,
    pass: &mut Pass<N>,
    list: u32,
    cond: u32,
) -> Result<u32, Full>
    requires small { list < 2 ^ 28 }
    requires list { IsTrue (is_place_of pass.old.words class.ChangeList list) }
    requires cond { IsTrue (is_place_of pass.old.words class.Cond cond) }
    ensures stands { IfOk result (λ place. StandsAt pass.new.words place (IsChangeList (change_list_at pass.old.words list ++ Assert (condition_at pass.old.words cond) ∷ []))) }
    ensures place { IfOk result (λ place. IsTrue (is_place_of pass.new.words class.ChangeList place)) }
    ensures small { IfOk result (λ place. place < 2 ^ 28) }
    ensures writes { PassWrites N.log.cap pass.old pass.new 2 (is_err result) }
{
    // A pass has fewer words than a field can number, so the condition fits one.
    let _ = pass.words();
    add(arena, pass, list, Kind::Assert, cond, 0)
}

/// The place of a change list with an assertion added.
#[tactic(auto, using(ct_word::proofs::Prefixes::place_in_prefix))]
fn assert_that<N: Site>(
    arena: &Arena<N>,
    pass: &mut Pass<N>,
    list: u32,
    p: &Pred,
) -> Result<u32, Full>
    requires small { list < 2 ^ 28 }
    requires list { IsTrue (is_place_of pass.old.words class.ChangeList list) }
    requires predicate { FitsRows 0 (condition_of p.now) }
    ensures adds { IfOk result (λ place. Adds pass.old.words pass.new.words list place (plain.Assert (condition_of p.now)) []) }
    ensures place { IfOk result (λ place. IsTrue (is_place_of pass.new.words class.ChangeList place)) }
    ensures small { IfOk result (λ place. place < 2 ^ 28) }
    ensures writes { PassWrites N.log.cap pass.old pass.new (encode_words (plain.Assert (condition_of p.now)) []) (is_err result) }
{
    let cond = condition(arena, pass, p)?;
    assert_at(arena, pass, list, cond)
}

/// The place of a change list with the change of an action added. An insertion from a query becomes
/// the insertion of exactly `rows`, in their order; an assertion over a query or a key becomes that
/// of exactly the first row's condition. Every other action is recorded as it is said. It takes no
/// memory.
///
/// # Errors
/// `Full` where the log has no room for a word of it.
pub fn encode<N: Site>(
    arena: &Arena<N>,
    pass: &mut Pass<N>,
    list: u32,
    action: &Action,
    rows: &[CRow],
) -> Result<u32, Full>
    requires small { list < 2 ^ 28 }
    requires list { IsTrue (is_place_of pass.old.words class.ChangeList list) }
    requires action { IsEncodable (action_of action.now) }
    requires rows { All (IsRowOf pass.old.words) rows.now }
    requires handed { AreHanded (action_of action.now) rows.now }
    ensures adds { IfOk result (λ place. Adds pass.old.words pass.new.words list place (action_of action.now) rows.now) }
    ensures place { IfOk result (λ place. IsTrue (is_place_of pass.new.words class.ChangeList place)) }
    ensures small { IfOk result (λ place. place < 2 ^ 28) }
    ensures writes { PassWrites N.log.cap pass.old pass.new (encode_words (action_of action.now) rows.now) (is_err result) }
    ensures longer { IsPrefix pass.old.words pass.new.words }
    ensures full { OnErr result (length pass.new.words ≡ N.log.cap) }
    ensures made { pass.new.made ≤ pass.old.made + encode_words (action_of action.now) rows.now }
    ensures err { OnErr result (pass.new.made < pass.old.made + encode_words (action_of action.now) rows.now) }
    ensures kept { kept_of pass.new ≡ kept_of pass.old }
{
    match action {
        Action::Create { name, columns } => {
            create(arena, pass, list, name.as_str(), columns.as_slice())
        }
        Action::InsertRows { name, rows, pred } => {
            insert_rows(arena, pass, list, name.as_str(), rows.as_slice(), pred)
        }
        Action::InsertQuery { name, .. } => insert(arena, pass, list, name.as_str(), rows),
        Action::Delete { name, pred } => delete(arena, pass, list, name.as_str(), pred),
        Action::Update { name, sets, pred } => {
            update(arena, pass, list, name.as_str(), sets.as_slice(), pred)
        }
        Action::Assert { pred } => assert_that(arena, pass, list, pred),
        Action::AssertQuery { .. } | Action::AssertKey { .. } => {
            assert_at(arena, pass, list, rows[0].cond)
        }
    }
}
