// How many rows and columns the tables of a query have.

ghost use Rattle.std.specs.Prelude.{◌≡◌, ◌++◌, map, min, IfOk, OnOk};
ghost use Rattle.ct_query.specs.Reads.{tables_of};
ghost use Rattle.ct_query.specs.Views.{query_of};
ghost use Rattle.ct_table.specs.Counting.{count_at};

use crate::db::Db;
use ct_query::{Count, Query};
use ct_word::{Memory, Text};

/// The name of a table, and its numbers of rows and columns; 0 of both where it is not there. A number of columns stops at
/// the greatest `u32`.
fn count(db: &Db, name: &Text) -> Result<Count, Memory>
    ensures { IfOk result (λ c. c ≡ count_at db.now name.now) }
{
    let (rows, columns) = match db.get(name) {
        Some(table) => (table.len(), table.columns().len()),
        None => (0, 0),
    };
    Ok(Count {
        name: name.clone()?,
        rows: rows as u64,
        columns: stopped(columns),
    })
}

/// The number, which stops at the greatest `u32`.
fn stopped(number: usize) -> u32
    ensures { result ≡ min number 4294967295 }
{
    u32::try_from(number).unwrap_or(u32::MAX)
}

/// Adds the counts of the tables of a query, one for each time that it names a table.
#[tactic(auto, using(crate::proofs::Counts::counts_added))]
pub(crate) fn add_counts(counts: &mut Vec<Count>, db: &Db, query: &Query) -> Result<(), Memory>
    ensures { OnOk result (counts.new.items ≡ counts.old.items ++ map (count_at db.now) (tables_of (query_of query.now))) }
{
    match query {
        Query::Table(name) => {
            counts.push(count(db, name)?)?;
            Ok(())
        }
        Query::Select(_, inner) | Query::Project(_, inner) => add_counts(counts, db, inner),
        Query::Product(left, right)
        | Query::Union(left, right)
        | Query::Except(left, right)
        | Query::Intersect(left, right) => {
            add_counts(counts, db, left)?;
            add_counts(counts, db, right)
        }
    }
}
