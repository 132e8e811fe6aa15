// Queries with positions for the names of columns.

ghost use Rattle.std.specs.Prelude.{◌≡◌, ◌≢◌, IfOk, IfErr, Ok, Err};
ghost use Rattle.ct_parse.specs.declared.tree.Query.{out-Query};
ghost use Rattle.ct_resolve.specs.Queries as spec;
ghost use Rattle.ct_resolve.specs.Views.{named_of};
ghost use Rattle.ct_resolve.specs.declared.error.ResolveError.TheVariants as fault;

use crate::error::ResolveError;
use crate::selects::{Named, combination, intersection, select};
use ct_headings::Headings;
use ct_parse::{Query, QueryPrimary, QueryTerm, SetOperator};
use std::alloc::Global;

/// A query in parentheses, or a SELECT.
#[cycle(query)]
fn primary<H: Headings>(
    alloc: Global,
    schema: &H,
    written: &QueryPrimary,
) -> Result<Named, ResolveError>
    ensures ok { IfOk result (λ n. spec.primary_at (H.schema schema.now).tables written.now ≡ Ok (named_of n)) }
    ensures err { IfErr result (λ e. e ≢ fault.Memory → spec.primary_at (H.schema schema.now).tables written.now ≡ Err e) }
{
    match written {
        QueryPrimary::Nested(inner) => query(alloc, schema, inner.get()),
        QueryPrimary::Select(written) => select(alloc, schema, written),
    }
}

/// The query so far with one more primary behind an INTERSECT.
#[cycle(query)]
fn with_primary<H: Headings>(
    alloc: Global,
    schema: &H,
    left: Named,
    written: &QueryPrimary,
) -> Result<Named, ResolveError>
    ensures ok { IfOk result (λ n. spec.with_primary (H.schema schema.now).tables (named_of left) written.now ≡ Ok (named_of n)) }
    ensures err { IfErr result (λ e. e ≢ fault.Memory → spec.with_primary (H.schema schema.now).tables (named_of left) written.now ≡ Err e) }
{
    match primary(alloc, schema, written) {
        Ok(right) => intersection(alloc, left, right),
        Err(refusal) => {
            drop(left);
            Err(refusal)
        }
    }
}

/// Primaries joined by INTERSECT, taken from the left.
#[cycle(query)]
#[tactic(auto, using(crate::proofs::QueryTrees::primaries_refused))]
fn query_term<H: Headings>(
    alloc: Global,
    schema: &H,
    written: &QueryTerm,
) -> Result<Named, ResolveError>
    ensures ok { IfOk result (λ n. spec.term_at (H.schema schema.now).tables written.now ≡ Ok (named_of n)) }
    ensures err { IfErr result (λ e. e ≢ fault.Memory → spec.term_at (H.schema schema.now).tables written.now ≡ Err e) }
{
    let mut found = primary(alloc, schema, &written.first)?;
    for next in written.rest.as_slice() {
        found = with_primary(alloc, schema, found, next)?;
    }
    Ok(found)
}

/// The query so far with one more term behind a UNION or EXCEPT.
#[cycle(query)]
fn with_term<H: Headings>(
    alloc: Global,
    schema: &H,
    left: Named,
    written: &(SetOperator, QueryTerm),
) -> Result<Named, ResolveError>
    ensures ok { IfOk result (λ n. spec.with_term (H.schema schema.now).tables (named_of left) written.now ≡ Ok (named_of n)) }
    ensures err { IfErr result (λ e. e ≢ fault.Memory → spec.with_term (H.schema schema.now).tables (named_of left) written.now ≡ Err e) }
{
    match query_term(alloc, schema, &written.1) {
        Ok(right) => combination(alloc, written.0, left, right),
        Err(refusal) => {
            drop(left);
            Err(refusal)
        }
    }
}

/// Terms joined by UNION and EXCEPT, taken from the left.
#[cycle(query)]
#[tactic(auto, using(crate::proofs::QueryTrees::terms_refused))]
fn query_terms<H: Headings>(
    alloc: Global,
    schema: &H,
    written: &Query,
) -> Result<Named, ResolveError>
    ensures ok { IfOk result (λ n. spec.with_terms (H.schema schema.now).tables (spec.term_at (H.schema schema.now).tables (out-Query written.now).first) (out-Query written.now).rest ≡ Ok (named_of n)) }
    ensures err { IfErr result (λ e. e ≢ fault.Memory → spec.with_terms (H.schema schema.now).tables (spec.term_at (H.schema schema.now).tables (out-Query written.now).first) (out-Query written.now).rest ≡ Err e) }
{
    let mut found = query_term(alloc, schema, &written.first)?;
    for next in written.rest.as_slice() {
        found = with_term(alloc, schema, found, next)?;
    }
    Ok(found)
}

/// A query with positions for the names of columns, and the names of its own columns.
///
/// # Errors
/// The refusals of its parts from the left, `ColumnCount` for the two sides of a set operator after
/// those of both; `Memory` where there is none for the query.
#[cycle(query)]
pub fn query<H: Headings>(alloc: Global, schema: &H, written: &Query) -> Result<Named, ResolveError>
    ensures ok { IfOk result (λ n. spec.query_at (H.schema schema.now).tables written.now ≡ Ok (named_of n)) }
    ensures err { IfErr result (λ e. e ≢ fault.Memory → spec.query_at (H.schema schema.now).tables written.now ≡ Err e) }
{
    let found = query_terms(alloc, schema, written)?;
    Ok(found)
}
