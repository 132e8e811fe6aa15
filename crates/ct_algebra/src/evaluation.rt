// The evaluation of a query.

ghost use Rattle.std.specs.Prelude.{◌≡◌, ◌≤◌, ◌<◌, ◌+◌, ◌⊎◌, length, map, IfOk, IsErrOf};
ghost use mathlib.Core.List.{IsPrefix};
ghost use Rattle.ct_word.specs.Value.{World};
ghost use Rattle.ct_word.specs.Sublist.{IsSublist};
ghost use Rattle.ct_query.specs.Bounds.{nodes};
ghost use Rattle.ct_query.specs.Database.{SameSet};
ghost use Rattle.ct_query.specs.Fits.{Fits, width};
ghost use Rattle.ct_query.specs.Patterns.{query_pattern};
ghost use Rattle.ct_query.specs.Rows.{rows};
ghost use Rattle.ct_query.specs.Size as spec;
ghost use Rattle.ct_query.specs.Size.{rows_in};
ghost use Rattle.ct_query.specs.Terms.{query_terms};
ghost use Rattle.ct_query.specs.Views.{query_of};
ghost use Rattle.ct_plan.specs.Planned.{planned};
ghost use Rattle.ct_plan.specs.Replaces.{Replaces};
ghost use Rattle.ct_operators.specs.Refusals.{is_full};
ghost use Rattle.ct_operators.specs.Tables.{AreRows, cells_of, value_of_rows};
ghost use Rattle.ct_table.specs.Counting.{count_of};
ghost use Rattle.ct_table.specs.Denotes.{heading_of, value_of_tables};
ghost use Rattle.ct_operators.specs.Terms.{RowsFrom};
ghost use Rattle.ct_condition.specs.Writes.{PassWrites};
ghost use Rattle.ct_algebra.specs.Operands.{AreTables, cells_in};
ghost use Rattle.ct_algebra.specs.Evaluates.{limit, Evaluates};
ghost use Rattle.ct_algebra.specs.Terms.{TermOfQuery};
ghost use Rattle.ct_algebra.specs.Words.{SpendsWithin, most_words};
ghost use Rattle.ct_algebra.specs.declared.error.EvalError.TheVariants as fault;

use crate::answering::answer;
use crate::error::EvalError;
use ct_arena::{Arena, Pass, Site};
use ct_plan::{copied, plan};
use ct_query::{Query, size};
use ct_table::{CTable, Db, TableError};
use ct_word::Memory;
use std::alloc::Global;

/// The most rows, or pairs of rows, that a part of a query may go through.
const LIMIT: u64 = 16_777_216;

/// The query that is evaluated in place of this one: it as it is planned, with the conjuncts of its selections where the
/// tables that they are about are.
fn in_place(alloc: Global, q: &Query, db: &Db) -> Result<Query, Memory>
    requires { Fits (map heading_of db.now) (query_of q.now) }
    ensures replaces { IfOk result (λ p. Replaces (map heading_of db.now) (query_of q.now) (query_of p)) }
    ensures is_planned { IfOk result (λ p. query_of p ≡ planned (map heading_of db.now) (query_of q.now)) }
{
    let copy = copied(alloc, q)?;
    plan(alloc, copy, db.headings())
}

/// The table that answers a query.
fn planned_answer<N: Site>(
    alloc: Global,
    arena: &Arena<N>,
    pass: &mut Pass<N>,
    q: &Query,
    db: &Db,
) -> Result<CTable, TableError>
    requires tables { AreTables pass.old.words db.now }
    requires fits { Fits (map heading_of db.now) (query_of q.now) }
    ensures evaluates { IfOk result (Evaluates pass.old.words pass.new.words db.now (query_of q.now)) }
    ensures spends { SpendsWithin pass.old.words pass.old.made pass.new.made (query_terms (planned (map heading_of db.now) (query_of q.now))) (most_words db.now (planned (map heading_of db.now) (query_of q.now))) }
    ensures writes { PassWrites N.log.cap pass.old pass.new (nodes (rows_in (map count_of db.now)) (query_of q.now)) (is_full result) }
{
    // The words are well formed, also where memory is wanting.
    let _ = pass.words();
    // A planned query makes no pairs that its selections would leave out.
    let planned = in_place(alloc, q, db)?;
    let answered = answer(alloc, arena, pass, &planned, db);
    // No session makes as many words as the greatest number that `nodes` stops at.
    let _ = pass.words();
    answered
}

/// The table that answers a query over the tables of a database: at every valuation it is worth what the query gives
/// on what these tables are worth (Imielinski and Lipski 1984). It has a name for each of its columns, by which they are
/// counted, and any name will do: what an answer's columns are called is said by the statement.
///
/// # Errors
/// `TooLarge` exactly where a part of the query goes through more than 16,777,216 rows or pairs of rows, by the numbers
/// of rows of the tables, in the query as it is given; no word is appended then. `Full` where the log has no room for a
/// word, `Memory` where there is none for the planned query or the rows.
pub fn eval<N: Site>(
    alloc: Global,
    arena: &Arena<N>,
    pass: &mut Pass<N>,
    q: &Query,
    db: &Db,
) -> Result<CTable, EvalError>
    requires tables { AreTables pass.old.words db.now }
    requires fits { Fits (map heading_of db.now) (query_of q.now) }
    ensures columns { IfOk result (λ out. length out.columns ≡ width (map heading_of db.now) (query_of q.now)) }
    ensures rows { IfOk result (λ out. AreRows pass.new.words (width (map heading_of db.now) (query_of q.now)) out.rows) }
    ensures tuples { (v : World) → IfOk result (λ out. SameSet (value_of_rows pass.new.words v out.rows) (rows v (query_of q.now) (value_of_tables pass.old.words v db.now))) }
    ensures part { IfOk result (λ out. IsSublist (cells_of pass.new.words out.rows) (query_pattern (cells_in pass.old.words db.now) (query_of q.now))) }
    ensures terms { IfOk result (λ out. RowsFrom pass.new.words out.rows (TermOfQuery pass.old.words db.now (query_of q.now))) }
    ensures longer { IsPrefix pass.old.words pass.new.words }
    ensures room { length pass.new.words ≤ N.log.cap }
    ensures full { IsErrOf result fault.Full → length pass.new.words ≡ N.log.cap }
    ensures rises { pass.old.made ≤ pass.new.made }
    ensures made { pass.new.made ≤ pass.old.made + nodes (rows_in (map count_of db.now)) (query_of q.now) }
    ensures fewer { IsErrOf result fault.Full → pass.new.made < pass.old.made + nodes (rows_in (map count_of db.now)) (query_of q.now) }

    // The words are those of the planned query: conjuncts that it moves to a table leave out rows before they are joined.
    ensures spends { SpendsWithin pass.old.words pass.old.made pass.new.made (query_terms (planned (map heading_of db.now) (query_of q.now))) (most_words db.now (planned (map heading_of db.now) (query_of q.now))) }
    ensures session { pass.new.session ≡ pass.old.session }
    ensures mine { pass.new.mine ≡ pass.old.mine }

    // A query that is too large is refused before any row is made. Want of memory may come in place of the refusal.
    ensures too_large { IsErrOf result fault.TooLarge → limit < spec.size (rows_in (map count_of db.now)) (query_of q.now) }
    ensures refused { limit < spec.size (rows_in (map count_of db.now)) (query_of q.now) → IsErrOf result fault.TooLarge ⊎ IsErrOf result fault.Memory }
    ensures untouched { limit < spec.size (rows_in (map count_of db.now)) (query_of q.now) → pass.new ≡ pass.old }
{
    // The words are within the capacity, also where memory is wanting.
    let _ = pass.words();
    let counts = db.counts_of(alloc, q)?;
    if size(q, &counts) > LIMIT {
        return Err(EvalError::TooLarge);
    }
    Ok(planned_answer(alloc, arena, pass, q, db)?)
}
