// The table that answers a query.

ghost use Rattle.std.specs.Prelude.{◌≡◌, ◌≤◌, length, map, IfOk, IfErr};
ghost use Rattle.ct_query.specs.Bounds.{nodes};
ghost use Rattle.ct_query.specs.Fits.{Fits, width};
ghost use Rattle.ct_query.specs.Patterns.{count};
ghost use Rattle.ct_query.specs.Schema.{schema};
ghost use Rattle.ct_query.specs.Size.{rows_in, row_bound};
ghost use Rattle.ct_query.specs.Views.{query_of};
ghost use Rattle.ct_condition.specs.Writes.{PassWrites};
ghost use Rattle.ct_table.specs.Counting.{count_of};
ghost use Rattle.ct_statement.specs.Asking.{AnswersQuery, IsUnasked};
ghost use Rattle.ct_statement.specs.Making.{is_full};
ghost use Rattle.ct_statement.specs.Sight.{IsSight, actions_before, history_of};

use crate::refusing::unanswered;
use crate::sight::Sight;
use ct_algebra::eval;
use ct_arena::{Arena, Pass, Site};
use ct_query::Query;
use ct_table::CTable;
use ct_transcript::Refusal;
use std::alloc::Global;

/// The table that answers a query under the global condition. The pass has the words of it.
///
/// # Errors
/// `TooLarge` only where the query's size, by the counts of all rows that were ever made, is above 16,777,216; `Full`
/// only where the log has no room; `Memory`.
pub(crate) fn answered<N: Site>(
    alloc: Global,
    arena: &Arena<N>,
    pass: &mut Pass<N>,
    sight: &Sight,
    query: &Query,
) -> Result<CTable, Refusal>
    requires sight { IsSight pass.old.words sight.now }
    requires fits { Fits (schema (history_of pass.old.words sight.now) (actions_before sight.now)).tables (query_of query.now) }
    ensures writes { PassWrites N.log.cap pass.old pass.new (nodes (count (history_of pass.old.words sight.now) (actions_before sight.now)) (query_of query.now)) (is_full result) }
    ensures width { IfOk result (λ table. length table.columns ≡ width (schema (history_of pass.old.words sight.now) (actions_before sight.now)).tables (query_of query.now)) }
    ensures few { IfOk result (λ table. length table.rows ≤ row_bound (rows_in (map count_of sight.now.tables)) (query_of query.now)) }
    ensures ok { IfOk result (λ table. AnswersQuery pass.new.words sight.now.global (history_of pass.old.words sight.now) (actions_before sight.now) (query_of query.now) (length table.columns) table.rows) }
    ensures err { IfErr result (IsUnasked (history_of pass.old.words sight.now) (actions_before sight.now) N.log.cap pass.new.words (query_of query.now)) }
{
    let evaluated = eval(alloc, arena, pass, query, sight.tables.db());
    // The words are well formed, and begin with the word true.
    let _ = pass.words();
    match evaluated {
        Ok(table) => Ok(table),
        Err(e) => Err(unanswered(e)),
    }
}
