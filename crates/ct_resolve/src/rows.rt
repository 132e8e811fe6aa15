// Rows and lists of names.

ghost use Rattle.std.specs.Prelude.{◌≡◌, ◌+◌, ◌≤◌, ◌^◌, ◌∷◌, IfOk, IfErr, length, map, nat_eq};
ghost use Rattle.std.specs.List.{list_all, list_any};
ghost use Rattle.ct_word.specs.Value.{same_text};
ghost use Rattle.ct_resolve.specs.Names as naming;
ghost use Rattle.ct_resolve.specs.Statements as spec;
ghost use Rattle.ct_resolve.specs.declared.error.ResolveError.TheVariants as fault;

use crate::error::ResolveError;
use ct_parse::{Cell, Row};
use ct_query::Heading;
use ct_word::{List, Null, Term, Text, Value};
use indexmap::IndexSet;
use std::alloc::Global;

/// The numbers of nulls that a word has room for are below this one.
const NUMBERS: u32 = 1 << 28;

/// Whether no name stands twice.
///
/// # Errors
/// `Memory` where there is none for a set of the names.
pub fn are_distinct(alloc: Global, names: &[Text]) -> Result<bool, ResolveError>
    ensures ok { IfOk result (λ b. b ≡ naming.are_distinct names.now) }
    ensures err { IfErr result (λ e. e ≡ fault.Memory) }
{
    let mut seen = IndexSet::new(alloc);
    for name in names {
        if !seen.insert(name.clone()?)? {
            return Ok(false);
        }
    }
    Ok(true)
}

/// The first name and the others as one list.
///
/// # Errors
/// `Memory` where there is none for the copies.
pub fn listed(alloc: Global, first: &Text, rest: &[Text]) -> Result<Vec<Text>, ResolveError>
    ensures ok { IfOk result (λ v. v.items ≡ first.now ∷ rest.now) }
    ensures err { IfErr result (λ e. e ≡ fault.Memory) }
{
    let one = first.clone()?;
    let mut all = Vec::new(alloc);
    all.push(one)?;
    for name in rest {
        all.push(name.clone()?)?;
    }
    Ok(all)
}

/// The term of a cell; a NULL is the null of the session with this number.
///
/// # Errors
/// `Memory` where there is none for a copy.
fn cell(session: u32, number: u32, written: &Cell) -> Result<Term, ResolveError>
    ensures ok { IfOk result (λ t. t ≡ spec.cell_term session number written.now) }
    ensures err { IfErr result (λ e. e ≡ fault.Memory) }
{
    match written {
        Cell::Number(number) => Ok(Term::Value(Value::Int(*number))),
        Cell::Text(text) => Ok(Term::Value(Value::Text(text.clone()?))),
        Cell::Null(name) => Ok(Term::Null(Null::Named(name.clone()?))),
        Cell::NewNull => Ok(Term::Null(Null::Fresh { session, number })),
    }
}

/// The number of the next NULL after a cell.
///
/// # Errors
/// `Memory` where it is no number of 32 bits.
fn number_after(number: u32, written: &Cell) -> Result<u32, ResolveError>
    ensures ok { IfOk result (λ n. n ≡ spec.next_after number written.now) }
    ensures err { IfErr result (λ e. e ≡ fault.Memory) }
{
    match written {
        Cell::NewNull => number.checked_add(1).ok_or(ResolveError::Memory),
        _ => Ok(number),
    }
}

/// The terms of a row whose next NULL has this number, and the number of the next NULL after it.
///
/// # Errors
/// `Memory` where there is none for the terms, or a number is none of 32 bits.
fn row(
    alloc: Global,
    session: u32,
    start: u32,
    written: &Row,
) -> Result<(List<Term>, u32), ResolveError>
    ensures ok { IfOk result (λ p. (p.0 ≡ spec.cell_terms session start (spec.cells_of written.now)) × (p.1 ≡ spec.next_after_all start (spec.cells_of written.now))) }
    ensures err { IfErr result (λ e. e ≡ fault.Memory) }
{
    let mut next = number_after(start, &written.first)?;
    let first = cell(session, start, &written.first)?;
    let mut terms = Vec::new(alloc);
    terms.push(first)?;
    for other in written.rest.as_slice() {
        terms.push(cell(session, next, other)?)?;
        next = number_after(next, other)?;
    }
    Ok((List::from_vec(terms), next))
}

/// The terms of rows whose next NULL has this number, and the number of the next NULL after them.
///
/// # Errors
/// `Memory` where there is none for the terms, or a number is none of 32 bits.
fn rows(
    alloc: Global,
    session: u32,
    start: u32,
    first: &Row,
    rest: &[Row],
) -> Result<(List<List<Term>>, u32), ResolveError>
    ensures ok { IfOk result (λ p. (p.0 ≡ spec.row_terms session start (first.now ∷ rest.now)) × (p.1 ≡ spec.next_after_rows start (first.now ∷ rest.now))) }
    ensures err { IfErr result (λ e. e ≡ fault.Memory) }
{
    let (terms, after) = row(alloc, session, start, first)?;
    let mut found = Vec::new(alloc);
    found.push(terms)?;
    let mut next = after;
    for other in rest {
        let (terms, after) = row(alloc, session, next, other)?;
        found.push(terms)?;
        next = after;
    }
    Ok((List::from_vec(found), next))
}

/// Whether a row has so many cells.
fn has_width(written: &Row, width: usize) -> bool
    ensures { result ≡ nat_eq (length (spec.cells_of written.now)) width }
{
    width > 0 && written.rest.len() == width - 1
}

/// Whether each of these rows has so many cells.
fn all_have_width(rows: &[Row], width: usize) -> bool
    ensures { result ≡ list_all (λ w. nat_eq (length (spec.cells_of w)) width) rows.now }
{
    rows.iter().all(|row| has_width(row, width))
}

/// Whether each row has as many cells as a table has columns.
pub fn all_fit(first: &Row, rest: &List<Row>, heading: &Heading) -> bool
    ensures { result ≡ list_all (λ w. nat_eq (length (spec.cells_of w)) (length heading.now.columns)) (first.now ∷ rest.now) }
{
    let width = heading.columns.len();
    has_width(first, width) && all_have_width(rest.as_slice(), width)
}

/// The terms of rows, where `fresh` is the number of the session's last null.
///
/// # Errors
/// `Memory` where there is none for the terms, or where the number of the session's last null would
/// be 2^28 or more: a word has no room for it.
pub fn terms_of_rows(
    alloc: Global,
    session: u32,
    fresh: u32,
    first: &Row,
    rest: &List<Row>,
) -> Result<List<List<Term>>, ResolveError>
    ensures ok { IfOk result (λ rs. rs ≡ spec.row_terms session (fresh + 1) (first.now ∷ rest.now)) }
    ensures room { IfOk result (λ rs. spec.next_after_rows (fresh + 1) (first.now ∷ rest.now) ≤ 2 ^ 28) }
    ensures err { IfErr result (λ e. e ≡ fault.Memory) }
{
    let start = fresh.checked_add(1).ok_or(ResolveError::Memory)?;
    let (terms, next) = rows(alloc, session, start, first, rest.as_slice())?;
    if next > NUMBERS {
        return Err(ResolveError::Memory);
    }
    Ok(terms)
}
