// How many rows a query has at most, and its size, from counts of rows.

ghost use Rattle.std.specs.Prelude.{◌≡◌};
ghost use Rattle.ct_query.specs.Size as spec;
ghost use Rattle.ct_query.specs.Size.{rows_in, stopped};
ghost use Rattle.ct_query.specs.Views.{query_of};

use crate::query::Query;
use crate::schema::Counts;

/// The count of a table; 0 where there is none.
pub fn rows_of(counts: &Counts, name: &str) -> u64
    ensures { result ≡ rows_in counts.now.tables name.now }
{
    for count in counts.tables.as_slice() {
        if count.name.as_str() == name {
            return count.rows;
        }
    }
    0
}

/// A bound on the rows of a query, which stops at the greatest `u64`.
pub fn row_bound(query: &Query, counts: &Counts) -> u64
    ensures { result ≡ stopped (spec.row_bound (rows_in counts.now.tables) (query_of query.now)) }
{
    match query {
        Query::Table(name) => rows_of(counts, name.as_str()),
        Query::Select(_, inner) | Query::Project(_, inner) => row_bound(inner, counts),
        Query::Product(left, right) => {
            row_bound(left, counts).saturating_mul(row_bound(right, counts))
        }
        Query::Union(left, right) => {
            row_bound(left, counts).saturating_add(row_bound(right, counts))
        }
        Query::Except(left, _) | Query::Intersect(left, _) => row_bound(left, counts),
    }
}

/// How many rows or pairs of rows a query itself goes through, its parts left aside.
pub fn number(query: &Query, counts: &Counts) -> u64
    ensures { result ≡ stopped (spec.number (rows_in counts.now.tables) (query_of query.now)) }
{
    match query {
        Query::Except(left, right) | Query::Intersect(left, right) => {
            let rows = row_bound(left, counts);
            rows.saturating_mul(row_bound(right, counts))
        }
        _ => row_bound(query, counts),
    }
}

/// How many rows or pairs of rows the greatest part of a query goes through, by the counts of its
/// tables alone: the pairs of a product, a difference or an intersection, the rows of both sides of
/// a union, and the rows of any other part. A table without a count has no rows. The number stops
/// at the greatest `u64`.
#[tactic(auto, using(crate::proofs::Sizes::one_part, crate::proofs::Sizes::two_parts))]
pub fn size(query: &Query, counts: &Counts) -> u64
    ensures { result ≡ stopped (spec.size (rows_in counts.now.tables) (query_of query.now)) }
{
    let own = number(query, counts);
    match query {
        Query::Table(_) => own,
        Query::Select(_, inner) | Query::Project(_, inner) => own.max(size(inner, counts)),
        Query::Product(left, right)
        | Query::Union(left, right)
        | Query::Except(left, right)
        | Query::Intersect(left, right) => own.max(size(left, counts)).max(size(right, counts)),
    }
}
