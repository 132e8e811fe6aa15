// Moving conjuncts down a query.

ghost use Rattle.std.specs.Prelude.{◌≡◌, map, IfOk, box_value};
ghost use Rattle.ct_query.specs.Pred.{condition_of};
ghost use Rattle.ct_query.specs.Views.{query_of};
ghost use Rattle.ct_plan.specs.Planned as spec;

use crate::columns::columns_of;
use crate::parts::{across_part, left_part, right_part, taken_apart};
use ct_query::{Pred, Query, Schema};
use ct_word::{List, Memory};
use std::alloc::Global;

/// One predicate for all of these: one stands alone, more are a run of AND, none is True. It takes no memory.
#[tactic(auto, using(crate::proofs::Selected::and_long))]
fn all_of(mut preds: Vec<Pred>) -> Pred
    ensures { condition_of result ≡ spec.all_of (map condition_of preds.items) }
{
    if preds.len() > 1 {
        return Pred::And(List::from_vec(preds));
    }
    match preds.pop() {
        Some(only) => only,
        None => Pred::True,
    }
}

/// One selection of all these predicates; none, no selection.
#[tactic(auto, using(crate::proofs::Selected::some_selected))]
fn selected(alloc: Global, query: Query, preds: Vec<Pred>) -> Result<Query, Memory>
    ensures { IfOk result (λ p. query_of p ≡ spec.selected (map condition_of preds.items) (query_of query)) }
{
    if preds.is_empty() {
        return Ok(query);
    }
    let query = Box::new(alloc, query)?;
    Ok(Query::Select(all_of(preds), query))
}

/// A query that these predicates come to, in a box.
#[cycle(placed)]
fn boxed(
    alloc: Global,
    query: &Query,
    preds: Vec<Pred>,
    schema: &Schema,
) -> Result<Box<Query>, Memory>
    ensures { IfOk result (λ p. query_of (box_value p) ≡ spec.placed schema.now.tables (map condition_of preds.items) (query_of query.now)) }
{
    let below = placed(alloc, query, preds, schema)?;
    Ok(Box::new(alloc, below)?)
}

/// A query that these predicates come to. At a product those of one side go on there, those without columns to both, and
/// those about both sides stay. At another query all stay.
#[cycle(placed)]
fn placed(alloc: Global, query: &Query, preds: Vec<Pred>, schema: &Schema) -> Result<Query, Memory>
    ensures { IfOk result (λ p. query_of p ≡ spec.placed schema.now.tables (map condition_of preds.items) (query_of query.now)) }
{
    match query {
        Query::Table(name) => selected(alloc, Query::Table(name.clone()?), preds),
        Query::Select(pred, inner) => {
            let apart = taken_apart(alloc, pred, inner)?;
            let below = placed(alloc, inner, apart, schema)?;
            selected(alloc, below, preds)
        }
        Query::Project(columns, inner) => {
            let columns = Vec::from_slice(alloc, columns.as_slice())?;
            let below = boxed(alloc, inner, Vec::new(alloc), schema)?;
            selected(alloc, Query::Project(List::from_vec(columns), below), preds)
        }
        Query::Product(left, right) => {
            let columns = columns_of(left, schema);
            let to_left = left_part(alloc, preds.as_slice(), columns)?;
            let to_right = right_part(alloc, preds.as_slice(), columns)?;
            let across = across_part(alloc, preds.as_slice(), columns)?;
            let left = boxed(alloc, left, to_left, schema)?;
            let right = boxed(alloc, right, to_right, schema)?;
            selected(alloc, Query::Product(left, right), across)
        }
        Query::Union(left, right) => {
            let left = boxed(alloc, left, Vec::new(alloc), schema)?;
            let right = boxed(alloc, right, Vec::new(alloc), schema)?;
            selected(alloc, Query::Union(left, right), preds)
        }
        Query::Except(left, right) => {
            let left = boxed(alloc, left, Vec::new(alloc), schema)?;
            let right = boxed(alloc, right, Vec::new(alloc), schema)?;
            selected(alloc, Query::Except(left, right), preds)
        }
        Query::Intersect(left, right) => {
            let left = boxed(alloc, left, Vec::new(alloc), schema)?;
            let right = boxed(alloc, right, Vec::new(alloc), schema)?;
            selected(alloc, Query::Intersect(left, right), preds)
        }
    }
}

/// A query with the conjuncts of its selections moved down to the products and tables that have their columns, by the
/// columns that its tables have in a schema. Where the query fits the schema, the planned one may be evaluated in its
/// place (`planned_replaces`).
///
/// # Errors
/// `Memory` where there is none for the planned query.
pub fn plan(alloc: Global, q: Query, schema: &Schema) -> Result<Query, Memory>
    ensures { IfOk result (λ p. query_of p ≡ spec.planned schema.now.tables (query_of q)) }
{
    let planned = placed(alloc, &q, Vec::new(alloc), schema);
    drop(q);
    planned
}
