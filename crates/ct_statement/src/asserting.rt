// The condition of an assertion over a query or a key.

ghost use Rattle.std.specs.Prelude.{◌≡◌, ◌<◌, ◌≤◌, ◌↔◌, ◌*◌, ◌∷◌, [], ◌⊎◌, length, Some, IfOk, IfErr, IsErrOf, IsSome, IsTrue, is_err};
ghost use Rattle.ct_condition.specs.Terms.{TermsFrom};
ghost use Rattle.ct_query.specs.Assertions.{as_wanted};
ghost use Rattle.ct_query.specs.Fits.{Fits, FitsAction};
ghost use Rattle.ct_query.specs.Patterns.{count};
ghost use Rattle.ct_query.specs.Plain as plain;
ghost use Rattle.ct_query.specs.Schema.{schema};
ghost use Rattle.ct_query.specs.Views.{query_of};
ghost use Rattle.ct_condition.specs.Writes.{PassWrites};
ghost use Rattle.ct_operators.specs.Building.{HoldsWhere};
ghost use Rattle.ct_operators.specs.Tables.{AreRows, value_of_rows};
ghost use Rattle.ct_operators.specs.Terms.{TermOfRows};
ghost use Rattle.ct_table.specs.Counting.{rows_of_found};
ghost use Rattle.ct_table.specs.Denotes.{find_table};
ghost use Rattle.ct_table.specs.Shared.{view_of};
ghost use Rattle.ct_algebra.specs.Evaluates.{limit};
ghost use Rattle.ct_transcript.specs.declared.reply.Refusal.TheVariants as refusal;
ghost use Rattle.ct_statement.specs.Making.{is_full, taking_words, widths_in};
ghost use Rattle.ct_statement.specs.Sight.{IsSight, actions_before, history_of};
ghost use Rattle.ct_statement.specs.Sources.{AreAsserted};
ghost use Rattle.ct_statement.specs.Unmet.{IsUnmet};

use crate::asking::answered;
use crate::sight::Sight;
use ct_arena::{Arena, Full, Pass, Site};
use ct_constraint::{empty, key, some};
use ct_query::Query;
use ct_table::{CTable, Db};
use ct_transcript::Refusal;
use ct_word::{CRow, List, Memory, Text};
use std::alloc::Global;

/// The most pairs of rows that an assertion of a key goes over: as many as a part of a query may.
const PAIRS: usize = 16_777_216;

/// Whether a table has more pairs of rows than an assertion of a key goes over.
fn has_many_pairs(rows: usize) -> bool
    ensures { IsTrue result ↔ limit < rows * rows }
{
    rows.saturating_mul(rows) > PAIRS
}

/// One row without cells, under the condition at a place.
///
/// # Errors
/// `Memory` where there is none for the row.
fn one_row(alloc: Global, cond: u32) -> Result<List<CRow>, Memory>
    ensures { IfOk result (λ rows. rows ≡ record { cells = []; cond = cond } ∷ []) }
{
    let mut rows = Vec::new(alloc);
    rows.push(CRow {
        cells: List::new(alloc),
        cond,
    })?;
    Ok(List::from_vec(rows))
}

/// The place of the condition that a table has a row where one is wanted, or that it has none.
///
/// # Errors
/// `Full` where the log has no room.
fn has_row<N: Site>(
    arena: &Arena<N>,
    pass: &mut Pass<N>,
    table: &CTable,
    wanted: bool,
) -> Result<u32, Full>
    requires rows { AreRows pass.old.words (length table.now.columns) table.now.rows }
    ensures holds { IfOk result (λ place. HoldsWhere pass.new.words place (λ v. as_wanted wanted (value_of_rows pass.old.words v table.now.rows))) }
    ensures terms { IfOk result (λ place. TermsFrom pass.new.words place (TermOfRows pass.old.words table.now.rows)) }
    ensures writes { PassWrites N.log.cap pass.old pass.new (2 * length table.now.rows) (is_err result) }
{
    if wanted {
        some(arena, pass, table)
    } else {
        empty(arena, pass, table)
    }
}

/// The row of an assertion that a query has a row, or that it has none: no cells, under the condition that is true where it
/// keeps the database. The pass has the words of it.
///
/// # Errors
/// `TooLarge` only where the query's size, by the counts of all rows that were ever made, is above 16,777,216; `Full`
/// only where the log has no room; `Memory`.
pub(crate) fn asserted_query<N: Site>(
    alloc: Global,
    arena: &Arena<N>,
    pass: &mut Pass<N>,
    sight: &Sight,
    wanted: bool,
    query: &Query,
) -> Result<List<CRow>, Refusal>
    requires sight { IsSight pass.old.words sight.now }
    requires fits { Fits (schema (history_of pass.old.words sight.now) (actions_before sight.now)).tables (query_of query.now) }
    ensures writes { PassWrites N.log.cap pass.old pass.new (taking_words (count (history_of pass.old.words sight.now) (actions_before sight.now)) (widths_in (schema (history_of pass.old.words sight.now) (actions_before sight.now)).tables) (plain.AssertQuery wanted (query_of query.now))) (is_full result) }
    ensures row { IfOk result (AreAsserted pass.new.words (history_of pass.old.words sight.now) (actions_before sight.now) (plain.AssertQuery wanted (query_of query.now))) }
    ensures err { IfErr result (IsUnmet (history_of pass.old.words sight.now) (actions_before sight.now) N.log.cap pass.new.words (plain.Act (plain.AssertQuery wanted (query_of query.now)))) }
{
    let table = match answered(alloc, arena, pass, sight, query) {
        Ok(table) => table,
        Err(why) => return Err(why),
    };
    match has_row(arena, pass, &table, wanted) {
        Ok(place) => Ok(one_row(alloc, place)?),
        Err(_) => Err(Refusal::Full),
    }
}

/// The table of a key.
///
/// # Errors
/// `TooLarge` exactly where the table has more than 4,096 rows; `Memory`.
fn table_for_key(alloc: Global, tables: &Db, name: &Text) -> Result<CTable, Refusal>
    requires there { IsSome (find_table tables.now name.now) }
    ensures table { IfOk result (λ t. find_table tables.now name.now ≡ Some (view_of name.now t)) }
    ensures too_large { IsErrOf result refusal.TooLarge ↔ limit < rows_of_found (find_table tables.now name.now) * rows_of_found (find_table tables.now name.now) }
    ensures err { IfErr result (λ e. (e ≡ refusal.TooLarge) ⊎ (e ≡ refusal.Memory)) }
{
    let Some(shared) = tables.get(name) else {
        unreachable!()
    };
    if has_many_pairs(shared.len()) {
        return Err(Refusal::TooLarge);
    }
    Ok(shared.copied(alloc)?)
}

/// The row of an assertion that columns are a key of a table: no cells, under the condition that is true where it keeps the
/// database. The pass has the words of it. There is none where the table has more than 4,096 rows.
///
/// # Errors
/// `TooLarge` only where the count of the table at the version that is seen, with the own actions after it, times itself, is
/// above 16,777,216; `Full` only where the log has no room; `Memory`.
pub(crate) fn asserted_key<N: Site>(
    alloc: Global,
    arena: &Arena<N>,
    pass: &mut Pass<N>,
    sight: &Sight,
    name: &Text,
    columns: &List<u32>,
) -> Result<List<CRow>, Refusal>
    requires sight { IsSight pass.old.words sight.now }
    requires fits { FitsAction (schema (history_of pass.old.words sight.now) (actions_before sight.now)).tables (plain.AssertKey name.now columns.now) }
    ensures writes { PassWrites N.log.cap pass.old pass.new (taking_words (count (history_of pass.old.words sight.now) (actions_before sight.now)) (widths_in (schema (history_of pass.old.words sight.now) (actions_before sight.now)).tables) (plain.AssertKey name.now columns.now)) (is_full result) }
    ensures row { IfOk result (AreAsserted pass.new.words (history_of pass.old.words sight.now) (actions_before sight.now) (plain.AssertKey name.now columns.now)) }
    ensures within { IfOk result (λ _. rows_of_found (find_table sight.now.tables name.now) * rows_of_found (find_table sight.now.tables name.now) ≤ limit) }
    ensures err { IfErr result (IsUnmet (history_of pass.old.words sight.now) (actions_before sight.now) N.log.cap pass.new.words (plain.Act (plain.AssertKey name.now columns.now))) }
{
    // The words are well formed, also where there is no table.
    let _ = pass.words();
    let table = match table_for_key(alloc, sight.tables.db(), name) {
        Ok(table) => table,
        Err(why) => return Err(why),
    };
    match key(arena, pass, &table, columns.as_slice()) {
        Ok(place) => Ok(one_row(alloc, place)?),
        Err(_) => Err(Refusal::Full),
    }
}
