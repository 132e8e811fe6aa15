// How many columns a query has, and which part of a product a predicate is about.

ghost use Rattle.std.specs.Prelude.{◌≡◌, map, not, ◌&&◌, ◌||◌};
ghost use Rattle.ct_word.specs.Condition.{listed};
ghost use Rattle.ct_query.specs.Fits.{columns_in, count_of};
ghost use Rattle.ct_query.specs.Pred.{condition_of};
ghost use Rattle.ct_query.specs.Views.{query_of};
ghost use Rattle.ct_plan.specs.Columns as spec;

use crate::sides::Side;
use ct_query::{Pred, Query, Schema};
use ct_word::Term;

/// How many columns a table has; 0 where there is none of this name.
fn columns_in(name: &str, schema: &Schema) -> u64
    ensures { result ≡ count_of (columns_in schema.now.tables name.now) }
{
    for heading in schema.tables.as_slice() {
        if heading.name.as_str() == name {
            return heading.columns.len() as u64;
        }
    }
    0
}

/// How many columns a query answers, which stops at the greatest `u64`.
pub fn columns_of(query: &Query, schema: &Schema) -> u64
    ensures { result ≡ spec.columns_of schema.now.tables (query_of query.now) }
{
    match query {
        Query::Table(name) => columns_in(name.as_str(), schema),
        Query::Project(columns, _) => columns.len() as u64,
        Query::Product(left, right) => {
            columns_of(left, schema).saturating_add(columns_of(right, schema))
        }
        Query::Select(_, inner) => columns_of(inner, schema),
        Query::Union(left, _) | Query::Except(left, _) | Query::Intersect(left, _) => {
            columns_of(left, schema)
        }
    }
}

/// Whether a term is no column, or one of this part of a product with so many columns on the left.
fn is_term_of(term: &Term, side: Side, left: u64) -> bool
    ensures { result ≡ spec.column_passes (spec.is_column_of side left) term.now }
{
    match (term, side) {
        (Term::Column(column), Side::Left) => (*column as u64) < left,
        (Term::Column(column), Side::Right) => left <= *column as u64 && left < u64::MAX,
        _ => true,
    }
}

/// Whether each column of a predicate is one of this part of a product with so many columns on the left.
#[cycle(is_of)]
#[tactic(auto, using(ct_query::proofs::Trees::and_is, ct_query::proofs::Trees::or_is))]
pub fn is_of(pred: &Pred, side: Side, left: u64) -> bool
    ensures { result ≡ spec.is_of side left (condition_of pred.now) }
{
    match pred {
        Pred::True | Pred::False => true,
        Pred::Same(one, other) => is_term_of(one, side, left) && is_term_of(other, side, left),
        Pred::Not(inner) => is_of(inner, side, left),
        Pred::And(preds) | Pred::Or(preds) => are_of(preds.as_slice(), side, left),
    }
}

/// The same of each predicate of a run.
#[cycle(is_of)]
fn are_of(preds: &[Pred], side: Side, left: u64) -> bool
    ensures { result ≡ spec.all_columns_pass (spec.is_column_of side left) (listed (map condition_of preds.now)) }
{
    for pred in preds {
        if !is_of(pred, side, left) {
            return false;
        }
    }
    true
}

/// Whether a predicate has columns of both parts.
pub fn is_across(pred: &Pred, left: u64) -> bool
    ensures { result ≡ spec.is_across left (condition_of pred.now) }
{
    !(is_of(pred, Side::Left, left) || is_of(pred, Side::Right, left))
}
