// The sets of an update, and the columns of a key.

ghost use Rattle.std.specs.Prelude.{◌≡◌, ◌≢◌, ◌∷◌, IfOk, IfErr, Ok, Err};
ghost use Rattle.ct_resolve.specs.Found.{each};
ghost use Rattle.ct_resolve.specs.Names as naming;
ghost use Rattle.ct_resolve.specs.Statements as spec;
ghost use Rattle.ct_resolve.specs.declared.error.ResolveError.TheVariants as fault;

use crate::conditions::term;
use crate::error::ResolveError;
use crate::names::own_position;
use crate::rows::are_distinct;
use ct_parse::Assignment;
use ct_query::Heading;
use ct_word::{List, Term, Text};
use std::alloc::Global;

/// An assignment with positions for names: its column, and then its term, which sees the table under
/// its own name.
///
/// # Errors
/// `UnknownColumn` for its column, then the refusal of its term; `Memory` where there is none for a
/// copy, or the position is no number of 32 bits.
fn set(alloc: Global, table: &Heading, written: &Assignment) -> Result<(u32, Term), ResolveError>
    ensures ok { IfOk result (λ s. spec.set_at table.now written.now ≡ Ok s) }
    ensures err { IfErr result (λ e. e ≢ fault.Memory → spec.set_at table.now written.now ≡ Err e) }
{
    let position = own_position(table, &written.column)?;
    let value = term(alloc, std::slice::from_ref(table), &written.value)?;
    Ok((position, value))
}

/// The sets of an update from the left.
///
/// # Errors
/// The first refusal of an assignment; `Memory` where there is none for the sets, or a position is no
/// number of 32 bits.
pub fn sets(
    alloc: Global,
    table: &Heading,
    first: &Assignment,
    rest: &[Assignment],
) -> Result<List<(u32, Term)>, ResolveError>
    ensures ok { IfOk result (λ l. each (spec.set_at table.now) (first.now ∷ rest.now) ≡ Ok l) }
    ensures err { IfErr result (λ e. e ≢ fault.Memory → each (spec.set_at table.now) (first.now ∷ rest.now) ≡ Err e) }
{
    let one = set(alloc, table, first)?;
    let mut found = Vec::new(alloc);
    found.push(one)?;
    for written in rest {
        let one = set(alloc, table, written)?;
        found.push(one)?;
    }
    Ok(List::from_vec(found))
}

/// The columns that assignments set, from the left.
///
/// # Errors
/// `Memory` where there is none for the copies.
fn columns_set(
    alloc: Global,
    first: &Assignment,
    rest: &[Assignment],
) -> Result<Vec<Text>, ResolveError>
    ensures ok { IfOk result (λ v. v.items ≡ spec.columns_set (first.now ∷ rest.now)) }
    ensures err { IfErr result (λ e. e ≡ fault.Memory) }
{
    let one = first.column.clone()?;
    let mut names = Vec::new(alloc);
    names.push(one)?;
    for written in rest {
        names.push(written.column.clone()?)?;
    }
    Ok(names)
}

/// Whether no column is set twice.
///
/// # Errors
/// `Memory` where there is none for the copies.
pub fn are_set_once(
    alloc: Global,
    first: &Assignment,
    rest: &[Assignment],
) -> Result<bool, ResolveError>
    ensures ok { IfOk result (λ b. b ≡ naming.are_distinct (spec.columns_set (first.now ∷ rest.now))) }
    ensures err { IfErr result (λ e. e ≡ fault.Memory) }
{
    let names = columns_set(alloc, first, rest)?;
    are_distinct(alloc, names.as_slice())
}

/// The positions of the columns of a table with these names.
///
/// # Errors
/// `UnknownColumn` where the table has one of them not; `Memory` where there is none for the list, or
/// a position is no number of 32 bits.
pub fn positions(alloc: Global, table: &Heading, names: &[Text]) -> Result<List<u32>, ResolveError>
    ensures ok { IfOk result (λ l. each (naming.column_in table.now) names.now ≡ Ok l) }
    ensures err { IfErr result (λ e. e ≢ fault.Memory → each (naming.column_in table.now) names.now ≡ Err e) }
{
    let mut found = Vec::new(alloc);
    for name in names {
        let position = own_position(table, name)?;
        found.push(position)?;
    }
    Ok(List::from_vec(found))
}
