// A SELECT, and two sides of a set operator.

ghost use Rattle.std.specs.Prelude.{◌≡◌, ◌≢◌, map, length, nat_eq, true, false, IfOk, IfErr, Ok, Err, box_value};
ghost use Rattle.ct_query.specs.Plain as plain;
ghost use Rattle.ct_query.specs.Pred.{condition_of};
ghost use Rattle.ct_query.specs.Views.{query_of};
ghost use Rattle.ct_resolve.specs.Found.{each, and_then};
ghost use Rattle.ct_resolve.specs.Conditions.{all_found, condition_at};
ghost use Rattle.ct_resolve.specs.Queries as spec;
ghost use Rattle.ct_resolve.specs.Views.{named_of};
ghost use Rattle.ct_resolve.specs.declared.error.ResolveError.TheVariants as fault;

use crate::conditions::{all_of, condition};
use crate::error::ResolveError;
use crate::tables::{are_seen_apart, boxed, picked, product, scope_of};
use ct_headings::Headings;
use ct_parse::{Joined, Select, SetOperator};
use ct_query::{Heading, Pred, Query};
use ct_word::{List, Text};
use std::alloc::Global;

/// A query with the names of its columns.
#[derive(Drop)]
pub struct Named {
    pub columns: List<Text>,
    pub query: Query,
}

/// The positions and the names of what is picked, each as a list.
///
/// # Errors
/// `Memory` where there is none for the lists.
fn unzipped(alloc: Global, picked: &[(u32, Text)]) -> Result<(List<u32>, List<Text>), ResolveError>
    ensures ok { IfOk result (λ r. (r.0 ≡ map (λ p. p.0) picked.now) × (r.1 ≡ map (λ p. p.1) picked.now)) }
    ensures err { IfErr result (λ e. e ≡ fault.Memory) }
{
    let mut positions = Vec::new(alloc);
    let mut names = Vec::new(alloc);
    for pick in picked {
        positions.push(pick.0)?;
        names.push(pick.1.clone()?)?;
    }
    Ok((List::from_vec(positions), List::from_vec(names)))
}

/// The conditions of a SELECT: those behind ON from the left, and then the one behind WHERE.
///
/// # Errors
/// The first refusal of a column from the left; `Memory` where there is none for the predicates.
fn conditions(alloc: Global, scope: &[Heading], select: &Select) -> Result<Vec<Pred>, ResolveError>
    ensures ok { IfOk result (λ v. each (condition_at scope.now) (spec.conditions_of select.now) ≡ Ok (map condition_of v.items)) }
    ensures err { IfErr result (λ e. e ≢ fault.Memory → each (condition_at scope.now) (spec.conditions_of select.now) ≡ Err e) }
{
    let mut found = Vec::new(alloc);
    for joined in select.tables.rest.as_slice() {
        if let Joined::Join { on, .. } = joined {
            let pred = condition(alloc, scope, on)?;
            found.push(pred)?;
        }
    }
    if let Some(written) = &select.condition {
        let pred = condition(alloc, scope, written)?;
        found.push(pred)?;
    }
    Ok(found)
}

/// The rows of the tables of a SELECT that its conditions hold on, as a query in a box.
///
/// # Errors
/// The first refusal of the conditions; `Memory` where there is none for the query.
fn selection(alloc: Global, scope: &[Heading], select: &Select) -> Result<Box<Query>, ResolveError>
    ensures ok { IfOk result (λ q. and_then (all_found (each (condition_at scope.now) (spec.conditions_of select.now))) (λ c. Ok (plain.Select c (spec.product_of select.now.tables))) ≡ Ok (query_of (box_value q))) }
    ensures err { IfErr result (λ e. e ≢ fault.Memory → and_then (all_found (each (condition_at scope.now) (spec.conditions_of select.now))) (λ c. Ok (plain.Select c (spec.product_of select.now.tables))) ≡ Err e) }
{
    let conditions = conditions(alloc, scope, select)?;
    let product = product(alloc, &select.tables)?;
    Ok(Box::new(alloc, Query::Select(all_of(conditions), product))?)
}

/// A SELECT whose tables are in scope.
///
/// # Errors
/// The first refusal of the items from the left, then that of the conditions; `Memory` where there
/// is none for the query.
fn selected(alloc: Global, scope: &[Heading], select: &Select) -> Result<Named, ResolveError>
    ensures ok { IfOk result (λ n. spec.selected scope.now select.now ≡ Ok (named_of n)) }
    ensures err { IfErr result (λ e. e ≢ fault.Memory → spec.selected scope.now select.now ≡ Err e) }
{
    let picked = picked(alloc, scope, &select.items)?;
    let selection = selection(alloc, scope, select)?;
    let (positions, columns) = unzipped(alloc, picked.as_slice())?;
    Ok(Named {
        columns,
        query: Query::Project(positions, selection),
    })
}

/// A SELECT as a projection of a selection of the product of its tables, taken from the left.
///
/// # Errors
/// `UnknownTable` for the tables from the left; then `DuplicateName` where two are seen under one
/// name; then the refusals of the items and of the conditions from the left. `Memory` where there
/// is none for the query.
pub fn select<H: Headings>(
    alloc: Global,
    schema: &H,
    written: &Select,
) -> Result<Named, ResolveError>
    ensures ok { IfOk result (λ n. spec.select_at (H.schema schema.now).tables written.now ≡ Ok (named_of n)) }
    ensures err { IfErr result (λ e. e ≢ fault.Memory → spec.select_at (H.schema schema.now).tables written.now ≡ Err e) }
{
    let scope = scope_of(alloc, schema, &written.tables)?;
    if !are_seen_apart(alloc, &written.tables)? {
        return Err(ResolveError::DuplicateName);
    }
    selected(alloc, scope.as_slice(), written)
}

/// The columns of the left of two sides of a set operator, and both queries, each in a box.
///
/// # Errors
/// `ColumnCount` where they have different numbers of columns; `Memory` where there is none for the
/// boxes.
fn sides(
    alloc: Global,
    left: Named,
    right: Named,
) -> Result<(List<Text>, (Box<Query>, Box<Query>)), ResolveError>
    ensures equal { IfOk result (λ s. nat_eq (length left.columns) (length right.columns) ≡ true) }
    ensures columns { IfOk result (λ s. s.0 ≡ left.columns) }
    ensures left { IfOk result (λ s. box_value s.1.0 ≡ left.query) }
    ensures right { IfOk result (λ s. box_value s.1.1 ≡ right.query) }
    ensures unequal { IfErr result (λ e. e ≢ fault.Memory → nat_eq (length left.columns) (length right.columns) ≡ false) }
    ensures err { IfErr result (λ e. e ≢ fault.Memory → e ≡ fault.ColumnCount) }
{
    if left.columns.len() != right.columns.len() {
        drop(left);
        drop(right);
        return Err(ResolveError::ColumnCount);
    }
    let queries = boxed(alloc, left.query, right.query)?;
    Ok((left.columns, queries))
}

/// Two sides of INTERSECT.
///
/// # Errors
/// `ColumnCount` where they have different numbers of columns; `Memory` where there is none for the
/// query.
pub fn intersection(alloc: Global, left: Named, right: Named) -> Result<Named, ResolveError>
    ensures ok { IfOk result (λ n. spec.sides (λ l r. plain.Intersect l r) (named_of left) (named_of right) ≡ Ok (named_of n)) }
    ensures err { IfErr result (λ e. e ≢ fault.Memory → spec.sides (λ l r. plain.Intersect l r) (named_of left) (named_of right) ≡ Err e) }
{
    let (columns, (first, second)) = sides(alloc, left, right)?;
    Ok(Named {
        columns,
        query: Query::Intersect(first, second),
    })
}

/// Two sides of UNION or EXCEPT.
///
/// # Errors
/// `ColumnCount` where they have different numbers of columns; `Memory` where there is none for the
/// query.
pub fn combination(
    alloc: Global,
    operator: SetOperator,
    left: Named,
    right: Named,
) -> Result<Named, ResolveError>
    ensures ok { IfOk result (λ n. spec.sides (spec.operation operator) (named_of left) (named_of right) ≡ Ok (named_of n)) }
    ensures err { IfErr result (λ e. e ≢ fault.Memory → spec.sides (spec.operation operator) (named_of left) (named_of right) ≡ Err e) }
{
    let (columns, (first, second)) = sides(alloc, left, right)?;
    let query = match operator {
        SetOperator::Union => Query::Union(first, second),
        SetOperator::Except => Query::Except(first, second),
    };
    Ok(Named { columns, query })
}
