// Statements with positions for names, by the lines of the grammar that ask for a change.

ghost use Rattle.std.specs.Prelude.{◌≡◌, ◌≢◌, ◌+◌, ◌≤◌, ◌^◌, [], ◌∷◌, IfOk, IfErr, Ok, Err};
ghost use Rattle.ct_query.specs.Pred.{condition_of};
ghost use Rattle.ct_query.specs.Views.{statement_of};
ghost use Rattle.ct_query.specs.Plain as plain;
ghost use Rattle.ct_parse.specs.declared.tree.Statement.TheVariants as tree;
ghost use Rattle.ct_resolve.specs.Conditions.{condition_at, condition_or_true};
ghost use Rattle.ct_resolve.specs.Found.{and_then};
ghost use Rattle.ct_resolve.specs.Queries.{query_at};
ghost use Rattle.ct_resolve.specs.Statements.{next_after_rows, resolved};
ghost use Rattle.ct_resolve.specs.declared.error.ResolveError.TheVariants as fault;

use crate::conditions::condition;
use crate::error::ResolveError;
use crate::names::{is_named, table_named};
use crate::queries::query;
use crate::rows::{all_fit, are_distinct, listed, terms_of_rows};
use crate::selects::Named;
use crate::sets::{are_set_once, positions, sets};
use ct_headings::Headings;
use ct_parse::{Assignment, Condition, Query, Row};
use ct_query::{Action, Heading, Pred, Resolved};
use ct_word::{List, Text};
use std::alloc::Global;

/// A condition that may be left out, and then is True.
///
/// # Errors
/// The first refusal of a column from the left; `Memory` where there is none for the predicate.
fn condition_or_default(
    alloc: Global,
    scope: &[Heading],
    written: &Option<Condition>,
) -> Result<Pred, ResolveError>
    ensures ok { IfOk result (λ p. condition_or_true scope.now written.now ≡ Ok (condition_of p)) }
    ensures err { IfErr result (λ e. e ≢ fault.Memory → condition_or_true scope.now written.now ≡ Err e) }
{
    match written {
        Some(written) => condition(alloc, scope, written),
        None => Ok(Pred::True),
    }
}

/// A new table with these columns.
///
/// # Errors
/// `TableExists` where the name is in the schema, then `DuplicateName` where two columns have one
/// name; `Memory` where there is none for the copies.
pub fn create<H: Headings>(
    alloc: Global,
    schema: &H,
    name: &Text,
    first: &Text,
    rest: &List<Text>,
) -> Result<Resolved, ResolveError>
    ensures ok { IfOk result (λ r. resolved (H.schema schema.now) 0 0 (tree.Create name.now first.now rest.now) ≡ Ok (statement_of r)) }
    ensures err { IfErr result (λ e. e ≢ fault.Memory → resolved (H.schema schema.now) 0 0 (tree.Create name.now first.now rest.now) ≡ Err e) }
{
    if is_named(schema, name) {
        return Err(ResolveError::TableExists);
    }
    let columns = listed(alloc, first, rest.as_slice())?;
    if !are_distinct(alloc, columns.as_slice())? {
        return Err(ResolveError::DuplicateName);
    }
    let name = name.clone()?;
    let columns = List::from_vec(columns);
    Ok(Resolved::Act(Action::Create { name, columns }))
}

/// Rows that are added to a table where a condition holds; `fresh` is the number of the session's
/// last null.
///
/// # Errors
/// `UnknownTable`; then `ColumnCount` where a row has another number of cells than the table has
/// columns; then the first refusal of the condition, which sees no table. `Memory` where there is
/// none for the terms, or where the number of the session's last null would be 2^28 or more.
pub fn insert_rows<H: Headings>(
    alloc: Global,
    schema: &H,
    session: u32,
    fresh: u32,
    name: &Text,
    first: &Row,
    rest: &List<Row>,
    written: &Option<Condition>,
) -> Result<Resolved, ResolveError>
    ensures ok { IfOk result (λ r. resolved (H.schema schema.now) session fresh (tree.InsertRows name.now first.now rest.now written.now) ≡ Ok (statement_of r)) }
    ensures room { IfOk result (λ r. next_after_rows (fresh + 1) (first.now ∷ rest.now) ≤ 2 ^ 28) }
    ensures err { IfErr result (λ e. e ≢ fault.Memory → resolved (H.schema schema.now) session fresh (tree.InsertRows name.now first.now rest.now written.now) ≡ Err e) }
{
    let heading = table_named(schema, name)?;
    if !all_fit(first, rest, heading) {
        return Err(ResolveError::ColumnCount);
    }
    let name = name.clone()?;
    let pred = condition_or_default(alloc, &[], written)?;
    let Ok(rows) = terms_of_rows(alloc, session, fresh, first, rest) else {
        drop(pred);
        return Err(ResolveError::Memory);
    };
    Ok(Resolved::Act(Action::InsertRows { name, rows, pred }))
}

/// The removal of the rows of a table where a condition holds.
///
/// # Errors
/// `UnknownTable`, then the first refusal of the condition, which sees the table under its own
/// name; `Memory` where there is none for the predicate.
pub fn delete<H: Headings>(
    alloc: Global,
    schema: &H,
    name: &Text,
    written: &Option<Condition>,
) -> Result<Resolved, ResolveError>
    ensures ok { IfOk result (λ r. resolved (H.schema schema.now) 0 0 (tree.Delete name.now written.now) ≡ Ok (statement_of r)) }
    ensures err { IfErr result (λ e. e ≢ fault.Memory → resolved (H.schema schema.now) 0 0 (tree.Delete name.now written.now) ≡ Err e) }
{
    let heading = table_named(schema, name)?;
    let name = name.clone()?;
    let pred = condition_or_default(alloc, std::slice::from_ref(heading), written)?;
    Ok(Resolved::Act(Action::Delete { name, pred }))
}

/// The replacement of the rows of a table where a condition holds.
///
/// # Errors
/// `UnknownTable`, then the first refusal of the assignments, then `DuplicateName` where a column is
/// set twice, then the first refusal of the condition; all see the table under its own name. `Memory`
/// where there is none for the sets or the predicate.
pub fn update<H: Headings>(
    alloc: Global,
    schema: &H,
    name: &Text,
    first: &Assignment,
    rest: &List<Assignment>,
    written: &Option<Condition>,
) -> Result<Resolved, ResolveError>
    ensures ok { IfOk result (λ r. resolved (H.schema schema.now) 0 0 (tree.Update name.now first.now rest.now written.now) ≡ Ok (statement_of r)) }
    ensures err { IfErr result (λ e. e ≢ fault.Memory → resolved (H.schema schema.now) 0 0 (tree.Update name.now first.now rest.now written.now) ≡ Err e) }
{
    let table = table_named(schema, name)?;
    let sets = sets(alloc, table, first, rest.as_slice())?;
    if !are_set_once(alloc, first, rest.as_slice())? {
        return Err(ResolveError::DuplicateName);
    }
    let name = name.clone()?;
    let pred = condition_or_default(alloc, std::slice::from_ref(table), written)?;
    Ok(Resolved::Act(Action::Update { name, sets, pred }))
}

/// That a condition, which sees no table, holds.
///
/// # Errors
/// `UnknownColumn` where it has a column; `Memory` where there is none for the predicate.
pub fn assertion(alloc: Global, written: &Condition) -> Result<Resolved, ResolveError>
    ensures ok { IfOk result (λ r. and_then (condition_at [] written.now) (λ d. Ok (plain.Act (plain.Assert d))) ≡ Ok (statement_of r)) }
    ensures err { IfErr result (λ e. e ≢ fault.Memory → and_then (condition_at [] written.now) (λ d. Ok (plain.Act (plain.Assert d))) ≡ Err e) }
{
    let pred = condition(alloc, &[], written)?;
    Ok(Resolved::Act(Action::Assert { pred }))
}

/// The rows of a query that are added to a table.
///
/// # Errors
/// `UnknownTable`, then the refusals of the query, then `ColumnCount` where it has another number of
/// columns than the table; `Memory` where there is none for the query.
pub fn insert_query<H: Headings>(
    alloc: Global,
    schema: &H,
    name: &Text,
    written: &Query,
) -> Result<Resolved, ResolveError>
    ensures ok { IfOk result (λ r. resolved (H.schema schema.now) 0 0 (tree.InsertQuery name.now written.now) ≡ Ok (statement_of r)) }
    ensures err { IfErr result (λ e. e ≢ fault.Memory → resolved (H.schema schema.now) 0 0 (tree.InsertQuery name.now written.now) ≡ Err e) }
{
    let heading = table_named(schema, name)?;
    let name = name.clone()?;
    let Named { columns, query } = query(alloc, schema, written)?;
    if columns.len() != heading.columns.len() {
        drop(query);
        return Err(ResolveError::ColumnCount);
    }
    Ok(Resolved::Act(Action::InsertQuery { name, query }))
}

/// That a query has a row, where one is wanted, or that it has none.
///
/// # Errors
/// The refusals of the query; `Memory` where there is none for it.
pub fn existence<H: Headings>(
    alloc: Global,
    schema: &H,
    wanted: bool,
    written: &Query,
) -> Result<Resolved, ResolveError>
    ensures ok { IfOk result (λ r. and_then (query_at (H.schema schema.now).tables written.now) (λ a. Ok (plain.Act (plain.AssertQuery wanted a.query))) ≡ Ok (statement_of r)) }
    ensures err { IfErr result (λ e. e ≢ fault.Memory → and_then (query_at (H.schema schema.now).tables written.now) (λ a. Ok (plain.Act (plain.AssertQuery wanted a.query))) ≡ Err e) }
{
    let Named { columns, query } = query(alloc, schema, written)?;
    drop(columns);
    Ok(Resolved::Act(Action::AssertQuery { wanted, query }))
}

/// That no two different rows of a table agree at these columns.
///
/// # Errors
/// `UnknownTable`; then `UnknownColumn` for the columns from the left; then `DuplicateName` where one
/// stands twice. `Memory` where there is none for the positions.
pub fn key<H: Headings>(
    alloc: Global,
    schema: &H,
    name: &Text,
    first: &Text,
    rest: &List<Text>,
) -> Result<Resolved, ResolveError>
    ensures ok { IfOk result (λ r. resolved (H.schema schema.now) 0 0 (tree.AssertKey name.now first.now rest.now) ≡ Ok (statement_of r)) }
    ensures err { IfErr result (λ e. e ≢ fault.Memory → resolved (H.schema schema.now) 0 0 (tree.AssertKey name.now first.now rest.now) ≡ Err e) }
{
    let heading = table_named(schema, name)?;
    let names = listed(alloc, first, rest.as_slice())?;
    let columns = positions(alloc, heading, names.as_slice())?;
    if !are_distinct(alloc, names.as_slice())? {
        return Err(ResolveError::DuplicateName);
    }
    let name = name.clone()?;
    Ok(Resolved::Act(Action::AssertKey { name, columns }))
}
