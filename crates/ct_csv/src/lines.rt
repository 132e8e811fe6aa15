// The lines of a file's script.

ghost use Rattle.std.specs.Prelude.{◌≡◌, ◌≢◌, ◌+◌, ◌<◌, ◌^◌, ℕ, [], map, drop, flat_map, length, slice_index_or, IfErr, IsSome, OnOk, codes};
ghost use Rattle.std.specs.List.{join_by};
ghost use Rattle.csv.specs.Records.{fields_of};
ghost use Rattle.ct_lex.specs.Tokens.{AreSlices};
ghost use Rattle.ct_print.specs.Written.{Appends};
ghost use Rattle.ct_print.specs.TermText.{in_parentheses, with_commas};
ghost use Rattle.ct_csv.specs.Fields.{cell_fields, condition_field, cell_of};
ghost use Rattle.ct_csv.specs.Refusing.{IsCondition, AreRight, AreRows, HaveSome, WhyNoRow, WhyNoRows};
ghost use Rattle.ct_csv.specs.Script as spec;
ghost use Rattle.ct_csv.specs.declared.error.ImportError.TheVariants as fault;

use crate::error::ImportError;
use crate::fields::{cell, condition_tokens, field};
use csv::StringRecord;
use ct_lex::Token;
use ct_print::{push_names, push_separator, push_term, push_text};
use ct_word::{Memory, Text};
use std::alloc::Global;

/// Appends the line that makes the table.
pub fn push_create(out: &mut String, name: &str, columns: &[Text]) -> Result<(), Memory>
    ensures { Appends result out.old out.new (spec.create_line name.now columns.now) }
{
    out.push_str("create table ")?;
    out.push_str(name)?;
    out.push_str(" ")?;
    push_names(out, columns)?;
    push_text(out, ";\n")
}

/// The refusal of the field at a position of the record with this number.
fn bad_cell(number: u64, k: usize) -> ImportError
    requires { k + 1 < 2 ^ 64 }
    ensures { result ≡ fault.BadCell number (k + 1) }
{
    ImportError::BadCell {
        number,
        field: k as u64 + 1,
    }
}

/// Appends the cells of a record in parentheses.
///
/// # Errors
/// `BadCell` where one of the fields is no cell, with the first such, and `Memory`.
fn push_cells(
    alloc: Global,
    out: &mut String,
    number: u64,
    row: &StringRecord,
) -> Result<(), ImportError>
    ensures ok { Appends result out.old out.new (in_parentheses (with_commas spec.cell_text (cell_fields (fields_of row.now)))) }
    ensures cells { OnOk result ((k : ℕ) → k + 1 < length (fields_of row.now) → IsSome (cell_of (slice_index_or (fields_of row.now) k []))) }
    ensures error { IfErr result (λ e. WhyNoRow number (fields_of row.now) e) }
{
    out.push_str("(")?;
    for k in 0..row.len().saturating_sub(1) {
        push_separator(out, k, ", ")?;
        match cell(alloc, field(row, k))? {
            Some(term) => push_term(out, &term)?,
            None => return Err(bad_cell(number, k)),
        }
    }
    push_text(out, ")")?;
    Ok(())
}

/// Appends the slices of tokens, with blanks between.
fn push_slices(out: &mut String, text: &str, tokens: &[Token]) -> Result<(), Memory>
    requires { AreSlices text.now tokens.now }
    ensures { Appends result out.old out.new (join_by (spec.slice_of text.now) (codes " ") tokens.now) }
{
    for (i, token) in tokens.iter().enumerate() {
        push_separator(out, i, " ")?;
        push_text(out, &text[token.start as usize..token.end as usize])?;
    }
    Ok(())
}

/// Appends a condition by its tokens, or nothing where there are none.
fn push_if(out: &mut String, text: &str, tokens: &[Token]) -> Result<(), Memory>
    requires { AreSlices text.now tokens.now }
    ensures { Appends result out.old out.new (spec.if_text text.now tokens.now) }
{
    if tokens.is_empty() {
        return Ok(());
    }
    out.push_str(" if ")?;
    push_slices(out, text, tokens)
}

/// Appends the condition of a record.
///
/// # Errors
/// `BadCell` where the last field is no condition, and `Memory`.
fn push_condition(
    alloc: Global,
    out: &mut String,
    number: u64,
    row: &StringRecord,
) -> Result<(), ImportError>
    requires { 0 < length (fields_of row.now) }
    ensures ok { Appends result out.old out.new (spec.condition_text (condition_field (fields_of row.now))) }
    ensures condition { OnOk result (IsCondition (condition_field (fields_of row.now))) }
    ensures error { IfErr result (λ e. e ≢ fault.Memory → (e ≡ fault.BadCell number (length (fields_of row.now))) × (IsCondition (condition_field (fields_of row.now)) → ⊥)) }
{
    let last = row.len().saturating_sub(1);
    let text = field(row, last);
    match condition_tokens(alloc, text)? {
        Some(tokens) => Ok(push_if(out, text, &tokens)?),
        None => Err(bad_cell(number, last)),
    }
}

/// Appends the line that inserts the row of a record, which is the one with this number.
///
/// # Errors
/// `BadCell` where a field is no cell, or the last no condition, with the first such; and `Memory`.
pub fn push_insert(
    alloc: Global,
    out: &mut String,
    name: &str,
    number: u64,
    row: &StringRecord,
) -> Result<(), ImportError>
    requires { 0 < length (fields_of row.now) }
    ensures ok { Appends result out.old out.new (spec.insert_line name.now (fields_of row.now)) }
    ensures right { OnOk result (AreRight (fields_of row.now)) }
    ensures error { IfErr result (λ e. WhyNoRow number (fields_of row.now) e) }
{
    out.push_str("insert into ")?;
    out.push_str(name)?;
    out.push_str(" values ")?;
    push_cells(alloc, out, number, row)?;
    push_condition(alloc, out, number, row)?;
    push_text(out, ";\n")?;
    Ok(())
}

/// Appends the lines that insert the rows of the records below the first.
///
/// # Errors
/// `BadCell` where a field is no cell, or the last of its record no condition, with the first such;
/// and `Memory`.
pub fn push_inserts(
    alloc: Global,
    out: &mut String,
    name: &str,
    records: &[StringRecord],
) -> Result<(), ImportError>
    requires { HaveSome (map fields_of records.now) }
    ensures ok { Appends result out.old out.new (flat_map (spec.insert_line name.now) (drop 1 (map fields_of records.now))) }
    ensures right { OnOk result (AreRows (map fields_of records.now)) }
    ensures error { IfErr result (λ e. WhyNoRows (map fields_of records.now) e) }
{
    for i in 1..records.len() {
        push_insert(alloc, out, name, i as u64 + 1, &records[i])?;
    }
    Ok(())
}
