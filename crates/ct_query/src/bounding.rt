// Within how many words the evaluation of a query is to stay, from counts of rows.

ghost use Rattle.std.specs.Prelude.{◌≡◌, option_map, unwrap_or};
ghost use Rattle.ct_query.specs.Size.{rows_in, greatest, stopped};
ghost use Rattle.ct_query.specs.Bounds as spec;
ghost use Rattle.ct_query.specs.Views.{query_of};

use crate::query::Query;
use crate::schema::Counts;
use crate::sizing::{number, row_bound, rows_of};
use crate::weighing::{operations, terms};

/// The columns of a projection, or of the left side of a set operator; 0 for another query.
fn width(query: &Query) -> u64
    ensures { result ≡ spec.width (query_of query.now) }
{
    match query {
        Query::Project(columns, _) => columns.len() as u64,
        Query::Union(left, _) | Query::Except(left, _) | Query::Intersect(left, _) => width(left),
        Query::Table(_) | Query::Select(_, _) | Query::Product(_, _) => 0,
    }
}

/// The counts of the tables of a product taken from the left, and the rows of all products on the
/// way, in one sum. It stops at the greatest `u64`, which stands for another query too.
#[tactic(auto, using(crate::proofs::Products::last_product))]
fn partial_products(query: &Query, counts: &Counts) -> u64
    ensures { result ≡ stopped (unwrap_or (option_map (spec.partial_products 1) (spec.product_counts (rows_in counts.now.tables) (query_of query.now))) greatest) }
{
    match query {
        Query::Table(name) => {
            let rows = rows_of(counts, name.as_str());
            rows.saturating_add(rows)
        }
        Query::Product(left, right) => match right.as_ref() {
            Query::Table(name) => partial_products(left, counts)
                .saturating_add(rows_of(counts, name.as_str()))
                .saturating_add(row_bound(query, counts)),
            _ => u64::MAX,
        },
        _ => u64::MAX,
    }
}

/// The words of a projection of this query; the greatest `u64` where it is no selection of a
/// product of tables.
fn select_words(query: &Query, counts: &Counts) -> u64
    ensures { result ≡ stopped (unwrap_or (spec.select_words (rows_in counts.now.tables) (query_of query.now)) greatest) }
{
    match query {
        Query::Select(pred, inner) => {
            let each = operations(pred).saturating_add(3);
            let all = each.saturating_mul(partial_products(inner, counts));
            all.saturating_add(terms(pred))
        }
        _ => u64::MAX,
    }
}

/// The words of a set operator, besides those of its sides.
fn operator_words(query: &Query, counts: &Counts) -> u64
    ensures { result ≡ stopped (spec.operator_words (rows_in counts.now.tables) (query_of query.now)) }
{
    let rows = row_bound(query, counts);
    let pairs = number(query, counts);
    match query {
        Query::Union(_, _) => rows,
        Query::Except(left, _) => {
            let each = width(left).saturating_mul(2).saturating_add(2);
            pairs.saturating_mul(each).saturating_add(rows)
        }
        Query::Intersect(left, _) => {
            let each = width(left).saturating_mul(2).saturating_add(1);
            pairs
                .saturating_mul(each)
                .saturating_add(rows.saturating_mul(2))
        }
        Query::Table(_) | Query::Select(_, _) | Query::Project(_, _) | Query::Product(_, _) => 0,
    }
}

/// The number of words within which the evaluation of a query is to stay, its literals with them,
/// by the counts of its tables alone. A table without a count has no rows. The query is to be a
/// projection of a selection of a product of tables taken from the left, or a set operator over
/// such queries, nested to any depth; the number of any other query is the greatest `u64`. The
/// number stops at the greatest `u64`.
pub fn nodes(query: &Query, counts: &Counts) -> u64
    ensures { result ≡ stopped (spec.nodes (rows_in counts.now.tables) (query_of query.now)) }
{
    match query {
        Query::Project(_, inner) => select_words(inner, counts),
        Query::Union(left, right) | Query::Except(left, right) | Query::Intersect(left, right) =>
            nodes(left, counts)
                .saturating_add(nodes(right, counts))
                .saturating_add(operator_words(query, counts)),
        Query::Table(_) | Query::Select(_, _) | Query::Product(_, _) => u64::MAX,
    }
}
