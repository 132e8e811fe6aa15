// The answer to a query.

ghost use Rattle.std.specs.Prelude.{◌≡◌, None, [], length, IfOk, IfErr};
ghost use Rattle.ct_query.specs.Bounds.{bound};
ghost use Rattle.ct_query.specs.Fits.{Fits, width};
ghost use Rattle.ct_query.specs.Patterns.{count};
ghost use Rattle.ct_query.specs.Plain as plain;
ghost use Rattle.ct_query.specs.Schema.{schema};
ghost use Rattle.ct_query.specs.Views.{query_of};
ghost use Rattle.ct_condition.specs.Writes.{PassWrites};
ghost use Rattle.ct_statement.specs.Answered.{Answers};
ghost use Rattle.ct_statement.specs.Making.{is_full, widths_in};
ghost use Rattle.ct_statement.specs.Sight.{IsSight, actions_before, history_of};
ghost use Rattle.ct_statement.specs.Unmet.{IsUnmet};

use crate::asking::answered;
use crate::printing::answer_of;
use crate::refusing::unlisted;
use crate::sight::Sight;
use crate::workers::{Workers, certain, possible};
use ct_arena::{Arena, Pass, Site};
use ct_query::{Ask, Query};
use ct_rewrite::{CertainRow, PossibleRow};
use ct_transcript::{Answer, Refusal};
use ct_word::{List, Text};
use std::alloc::Global;
use std::thread::Threads;

/// The answer to a query: its rows, or a list under the names of its columns.
#[derive(Drop)]
pub enum Answered {
    Rows(Answer),
    Possible {
        columns: List<Text>,
        list: List<PossibleRow>,
    },
    Certain {
        columns: List<Text>,
        list: List<CertainRow>,
    },
}

/// The answer to a query whose columns have these names: its rows, or the possible ones or the certain tuples, which so many
/// workers decide. The pass has the words of it.
///
/// # Errors
/// `TooLarge` only where the query's size, by the counts of all rows that were ever made, is above 16,777,216; `Full`
/// only where the log has no room, and the statement may need a word; `Memory`.
pub fn answer_to<N: Site, R: Threads + Sync>(
    rt: &R,
    alloc: Global,
    arena: &Arena<N>,
    pass: &mut Pass<N>,
    sight: &Sight,
    kind: Ask,
    columns: List<Text>,
    query: &Query,
    workers: Workers,
) -> Result<Answered, Refusal>
    requires sight { IsSight pass.old.words sight.now }
    requires fits { Fits (schema (history_of pass.old.words sight.now) (actions_before sight.now)).tables (query_of query.now) }
    requires named { length columns ≡ width (schema (history_of pass.old.words sight.now) (actions_before sight.now)).tables (query_of query.now) }
    ensures writes { PassWrites N.log.cap pass.old pass.new (bound (count (history_of pass.old.words sight.now) (actions_before sight.now)) (widths_in (schema (history_of pass.old.words sight.now) (actions_before sight.now)).tables) None (plain.Asks kind [] (query_of query.now))) (is_full result) }
    ensures ok { IfOk result (Answers (history_of pass.old.words sight.now) (actions_before sight.now) pass.new.words kind columns (query_of query.now)) }
    ensures err { IfErr result (IsUnmet (history_of pass.old.words sight.now) (actions_before sight.now) N.log.cap pass.new.words (plain.Asks kind columns (query_of query.now))) }
{
    let table = match answered(alloc, arena, pass, sight, query) {
        Ok(table) => table,
        Err(why) => return Err(why),
    };
    // The words are well formed.
    let words = pass.words();
    match kind {
        Ask::Rows => {
            let rows = table.rows.as_slice();
            let answer = answer_of(alloc, words, columns, rows, sight.global)?;
            Ok(Answered::Rows(answer))
        }
        Ask::Possible => match possible(rt, alloc, arena, pass, &table, sight.global, workers) {
            Ok(list) => Ok(Answered::Possible { columns, list }),
            Err(e) => Err(unlisted(e)),
        },
        Ask::Certain => {
            let (global, kept) = (sight.global, &sight.kept);
            let listed = certain(rt, alloc, arena, pass, &table, global, kept, workers);
            // A session has made fewer than 2^28 words.
            let _ = pass.words();
            match listed {
                Ok(list) => Ok(Answered::Certain { columns, list }),
                Err(e) => Err(unlisted(e)),
            }
        }
    }
}
