// Tables and columns by their names.

ghost use Rattle.std.specs.Prelude.{◌≡◌, ◌≢◌, ◌+◌, IfOk, IfErr, Ok, Err};
ghost use Rattle.ct_resolve.specs.Names.{table_in, is_table, are_distinct, may_be_of, own_name, place_from, place_in, column_in, column_at};
ghost use Rattle.ct_resolve.specs.declared.error.ResolveError.TheVariants as fault;

use crate::error::ResolveError;
use ct_headings::Headings;
use ct_parse::Column;
use ct_query::Heading;
use ct_word::Text;

/// The first table with this name.
///
/// # Errors
/// `UnknownTable` where there is none.
#[tactic(auto, using(crate::proofs::TablesFound::table_is))]
pub fn table_named<'a, H: Headings>(schema: &'a H, name: &Text) -> Result<&'a Heading, ResolveError>
    ensures ok { IfOk result (λ h. table_in (H.schema schema.now).tables name.now ≡ Ok h.now) }
    ensures err { IfErr result (λ e. table_in (H.schema schema.now).tables name.now ≡ Err e) }
{
    match schema.heading(name) {
        Some(heading) => Ok(heading),
        None => Err(ResolveError::UnknownTable),
    }
}

/// Whether a table has this name.
pub fn is_named<H: Headings>(schema: &H, name: &Text) -> bool
    ensures { result ≡ is_table (H.schema schema.now).tables name.now }
{
    schema.heading(name).is_some()
}

/// Where the first of these names is that is this one.
fn place(names: &[Text], name: &str) -> Option<usize>
    ensures { result ≡ place_from 0 names.now name.now }
{
    for (k, other) in names.iter().enumerate() {
        if other.as_str() == name {
            return Some(k);
        }
    }
    None
}

/// Where a written column is in a table that is seen under its name.
fn place_in_table(table: &Heading, column: &Column) -> Option<usize>
    ensures { result ≡ place_in table.now column.now }
{
    match column {
        Column::Plain(name) => place(table.columns.as_slice(), name.as_str()),
        Column::Qualified(owner, name) => {
            if table.name.as_str() == owner.as_str() {
                place(table.columns.as_slice(), name.as_str())
            } else {
                None
            }
        }
    }
}

/// A position that is so much greater.
///
/// # Errors
/// `Memory` where it is no number of 32 bits: no machine has the memory for so many columns.
pub fn further(position: u32, more: usize) -> Result<u32, ResolveError>
    ensures ok { IfOk result (λ k. k ≡ position + more) }
    ensures err { IfErr result (λ e. e ≡ fault.Memory) }
{
    let more = u32::try_from(more).map_err(|_| ResolveError::Memory)?;
    position.checked_add(more).ok_or(ResolveError::Memory)
}

/// The position of the first column of a table with this name.
///
/// # Errors
/// `UnknownColumn` where there is none; `Memory` where the position is no number of 32 bits.
pub fn own_position(table: &Heading, name: &Text) -> Result<u32, ResolveError>
    ensures ok { IfOk result (λ k. column_in table.now name.now ≡ Ok k) }
    ensures err { IfErr result (λ e. e ≢ fault.Memory → column_in table.now name.now ≡ Err e) }
{
    match place(table.columns.as_slice(), name.as_str()) {
        Some(k) => further(0, k),
        None => Err(ResolveError::UnknownColumn),
    }
}

/// The position of a written column among those of the tables in scope, each under its visible
/// name; the columns of all tables are counted from the left, from 0.
///
/// # Errors
/// `UnknownColumn` where no table has it, and `AmbiguousColumn` where two or more have it;
/// `Memory` where a position is no number of 32 bits.
pub fn column_position(scope: &[Heading], column: &Column) -> Result<u32, ResolveError>
    ensures ok { IfOk result (λ k. column_at scope.now column.now ≡ Ok k) }
    ensures err { IfErr result (λ e. e ≢ fault.Memory → column_at scope.now column.now ≡ Err e) }
{
    let mut start = 0;
    let mut found = None;
    for table in scope {
        if let Some(k) = place_in_table(table, column) {
            if found.is_some() {
                return Err(ResolveError::AmbiguousColumn);
            }
            found = Some(further(start, k)?);
        }
        start = further(start, table.columns.len())?;
    }
    found.ok_or(ResolveError::UnknownColumn)
}
