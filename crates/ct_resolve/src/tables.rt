// The tables of a FROM, and what a SELECT picks of their columns.

ghost use Rattle.std.specs.Prelude.{◌≡◌, ◌≢◌, ◌+◌, ◌++◌, ◌∷◌, map, length, IfOk, IfErr, OnOk, Ok, Err, box_value};
ghost use Rattle.ct_query.specs.Plain as plain;
ghost use Rattle.ct_query.specs.Views.{query_of};
ghost use Rattle.ct_resolve.specs.Found.{each};
ghost use Rattle.ct_resolve.specs.Names as naming;
ghost use Rattle.ct_resolve.specs.Queries as spec;
ghost use Rattle.ct_resolve.specs.declared.error.ResolveError.TheVariants as fault;

use crate::error::ResolveError;
use crate::names::{column_position, further, table_named};
use crate::rows::are_distinct;
use ct_headings::Headings;
use ct_parse::{Column, Item, Items, Joined, Table, Tables};
use ct_query::{Heading, Query};
use ct_word::Text;
use std::alloc::{AllocError, Global};

/// The name under which a table is seen: its alias, or else its own.
fn visible_name(table: &Table) -> &Text
    ensures { result.now ≡ spec.visible table.now }
{
    match &table.alias {
        Some(alias) => &alias.name,
        None => &table.name,
    }
}

/// The table behind a comma or JOIN.
fn table_of(joined: &Joined) -> &Table
    ensures { result.now ≡ spec.table_of joined.now }
{
    match joined {
        Joined::Comma(table) => table,
        Joined::Join { table, .. } => table,
    }
}

/// The columns of a table of the schema under the name that a FROM gives it.
///
/// # Errors
/// `UnknownTable` where it is not in the schema; `Memory` where there is none for the copies.
fn seen_table<H: Headings>(
    alloc: Global,
    schema: &H,
    table: &Table,
) -> Result<Heading, ResolveError>
    ensures ok { IfOk result (λ h. spec.seen_table (H.schema schema.now).tables table.now ≡ Ok h) }
    ensures err { IfErr result (λ e. e ≢ fault.Memory → spec.seen_table (H.schema schema.now).tables table.now ≡ Err e) }
{
    let heading = table_named(schema, &table.name)?;
    Ok(Heading {
        name: visible_name(table).clone()?,
        columns: heading.columns.clone()?,
    })
}

/// The same of the table behind a comma or JOIN.
fn seen_joined<H: Headings>(
    alloc: Global,
    schema: &H,
    joined: &Joined,
) -> Result<Heading, ResolveError>
    ensures ok { IfOk result (λ h. spec.seen_table (H.schema schema.now).tables (spec.table_of joined.now) ≡ Ok h) }
    ensures err { IfErr result (λ e. e ≢ fault.Memory → spec.seen_table (H.schema schema.now).tables (spec.table_of joined.now) ≡ Err e) }
{
    seen_table(alloc, schema, table_of(joined))
}

/// The tables of a FROM under their visible names.
///
/// # Errors
/// `UnknownTable` where one is not in the schema; `Memory` where there is none for the copies.
pub fn scope_of<H: Headings>(
    alloc: Global,
    schema: &H,
    tables: &Tables,
) -> Result<Vec<Heading>, ResolveError>
    ensures ok { IfOk result (λ v. each (spec.seen_table (H.schema schema.now).tables) (spec.tables_of tables.now) ≡ Ok v.items) }
    ensures err { IfErr result (λ e. e ≢ fault.Memory → each (spec.seen_table (H.schema schema.now).tables) (spec.tables_of tables.now) ≡ Err e) }
{
    let first = seen_table(alloc, schema, &tables.first)?;
    let mut found = Vec::new(alloc);
    found.push(first)?;
    for joined in tables.rest.as_slice() {
        let heading = seen_joined(alloc, schema, joined)?;
        found.push(heading)?;
    }
    Ok(found)
}

/// The visible names of the tables of a FROM.
///
/// # Errors
/// `Memory` where there is none for the copies.
fn visible_names(alloc: Global, tables: &Tables) -> Result<Vec<Text>, ResolveError>
    ensures ok { IfOk result (λ v. v.items ≡ map spec.visible (spec.tables_of tables.now)) }
    ensures err { IfErr result (λ e. e ≡ fault.Memory) }
{
    let first = visible_name(&tables.first).clone()?;
    let mut names = Vec::new(alloc);
    names.push(first)?;
    for joined in tables.rest.as_slice() {
        names.push(visible_name(table_of(joined)).clone()?)?;
    }
    Ok(names)
}

/// Whether the tables of a FROM are seen under different names.
///
/// # Errors
/// `Memory` where there is none for the copies.
pub fn are_seen_apart(alloc: Global, tables: &Tables) -> Result<bool, ResolveError>
    ensures ok { IfOk result (λ b. b ≡ naming.are_distinct (map spec.visible (spec.tables_of tables.now))) }
    ensures err { IfErr result (λ e. e ≡ fault.Memory) }
{
    let names = visible_names(alloc, tables)?;
    are_distinct(alloc, names.as_slice())
}

/// Two queries, each in a box.
pub fn boxed(
    alloc: Global,
    left: Query,
    right: Query,
) -> Result<(Box<Query>, Box<Query>), AllocError>
    ensures { IfOk result (λ b. (box_value b.0 ≡ left) × (box_value b.1 ≡ right)) }
{
    let first = Box::new(alloc, left)?;
    Ok((first, Box::new(alloc, right)?))
}

/// The product of a query and one more table.
///
/// # Errors
/// `Memory` where there is none for it.
fn with_table(alloc: Global, query: Query, table: &Table) -> Result<Query, ResolveError>
    ensures ok { IfOk result (λ q. query_of q ≡ plain.Product (query_of query) (plain.Table table.now.name)) }
    ensures err { IfErr result (λ e. e ≡ fault.Memory) }
{
    let Ok(name) = table.name.clone() else {
        drop(query);
        return Err(ResolveError::Memory);
    };
    let (first, second) = boxed(alloc, query, Query::Table(name))?;
    Ok(Query::Product(first, second))
}

/// The product of the tables of a FROM, taken from the left, in a box.
///
/// # Errors
/// `Memory` where there is none for the query.
pub fn product(alloc: Global, tables: &Tables) -> Result<Box<Query>, ResolveError>
    ensures ok { IfOk result (λ q. query_of (box_value q) ≡ spec.product_of tables.now) }
    ensures err { IfErr result (λ e. e ≡ fault.Memory) }
{
    let mut query = Query::Table(tables.first.name.clone()?);
    for joined in tables.rest.as_slice() {
        query = with_table(alloc, query, table_of(joined))?;
    }
    Ok(Box::new(alloc, query)?)
}

/// Adds the names of a table's columns with the positions from `start` on. The position after them
/// is answered.
///
/// # Errors
/// `Memory` where there is none for the copies, or a position is no number of 32 bits.
fn pick_all(picked: &mut Vec<(u32, Text)>, start: u32, table: &Heading) -> Result<u32, ResolveError>
    ensures ok { IfOk result (λ k. k ≡ start + length table.now.columns) }
    ensures picked { OnOk result (picked.new.items ≡ picked.old.items ++ spec.numbered start table.now.columns) }
    ensures err { IfErr result (λ e. e ≡ fault.Memory) }
{
    let mut next = start;
    for name in table.columns.as_slice() {
        picked.push((next, name.clone()?))?;
        next = further(next, 1)?;
    }
    Ok(next)
}

/// All columns of the tables in scope with their positions.
///
/// # Errors
/// `Memory` where there is none for the copies, or a position is no number of 32 bits.
fn all_columns(alloc: Global, scope: &[Heading]) -> Result<Vec<(u32, Text)>, ResolveError>
    ensures ok { IfOk result (λ v. v.items ≡ spec.numbered 0 (spec.columns_of scope.now)) }
    ensures err { IfErr result (λ e. e ≡ fault.Memory) }
{
    let mut picked = Vec::new(alloc);
    let mut next = 0;
    for table in scope {
        next = pick_all(&mut picked, next, table)?;
    }
    Ok(picked)
}

/// The name of an item: the one after AS, or else that of its column.
fn item_name(item: &Item) -> &Text
    ensures { result.now ≡ spec.name_or item.now.alias (naming.own_name item.now.column) }
{
    match &item.alias {
        Some(name) => name,
        None => match &item.column {
            Column::Plain(name) => name,
            Column::Qualified(_, name) => name,
        },
    }
}

/// The position and the name of an item.
///
/// # Errors
/// The refusal of its column; `Memory` where there is none for the copy.
fn picked_item(scope: &[Heading], item: &Item) -> Result<(u32, Text), ResolveError>
    ensures ok { IfOk result (λ p. spec.item_at scope.now item.now ≡ Ok p) }
    ensures err { IfErr result (λ e. e ≢ fault.Memory → spec.item_at scope.now item.now ≡ Err e) }
{
    let position = column_position(scope, &item.column)?;
    Ok((position, item_name(item).clone()?))
}

/// The positions and names of items.
///
/// # Errors
/// The first refusal of a column from the left; `Memory` where there is none for the copies.
fn picked_items(
    alloc: Global,
    scope: &[Heading],
    first: &Item,
    rest: &[Item],
) -> Result<Vec<(u32, Text)>, ResolveError>
    ensures ok { IfOk result (λ v. each (spec.item_at scope.now) (first.now ∷ rest.now) ≡ Ok v.items) }
    ensures err { IfErr result (λ e. e ≢ fault.Memory → each (spec.item_at scope.now) (first.now ∷ rest.now) ≡ Err e) }
{
    let one = picked_item(scope, first)?;
    let mut picked = Vec::new(alloc);
    picked.push(one)?;
    for item in rest {
        let one = picked_item(scope, item)?;
        picked.push(one)?;
    }
    Ok(picked)
}

/// The positions and names of what a SELECT picks.
///
/// # Errors
/// The first refusal of a column from the left; `Memory` where there is none for the copies.
pub fn picked(
    alloc: Global,
    scope: &[Heading],
    items: &Items,
) -> Result<Vec<(u32, Text)>, ResolveError>
    ensures ok { IfOk result (λ v. spec.items_at scope.now items.now ≡ Ok v.items) }
    ensures err { IfErr result (λ e. e ≢ fault.Memory → spec.items_at scope.now items.now ≡ Err e) }
{
    match items {
        Items::Star => all_columns(alloc, scope),
        Items::Listed(first, rest) => picked_items(alloc, scope, first, rest.as_slice()),
    }
}
