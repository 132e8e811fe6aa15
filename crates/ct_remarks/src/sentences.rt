// What a remark says behind its head.

use crate::cases::Case;
use crate::causes::{push_conflict, push_full, push_in_transaction, push_inconsistent};
use crate::context::Context;
use crate::cut::cut;
use crate::reading::Reading;
use crate::transactions::Opened;
use ct_advice::{
    Visible, push_ambiguous_column, push_column_count, push_duplicate_name, push_table_exists,
    push_too_deep, push_too_large, push_unknown_column, push_unknown_table,
};
use ct_hints::{Unread, push_fault, push_unspelled};
use ct_transcript::Refusal;
use ct_word::Memory;
use std::alloc::Global;

fn unread<'a>(case: &Case<'a>) -> Unread<'a> {
    Unread {
        text: case.text.text,
        lead: case.text.first.saturating_sub(case.text.at),
        line: case.first.line,
        column: case.first.column,
    }
}

/// Appends what is said of a text that was not read.
fn push_unread(
    alloc: Global,
    out: &mut String,
    case: &Case,
    reading: &Reading,
) -> Result<(), Memory> {
    match (reading.fault, case.why) {
        (Some(fault), _) => push_fault(out, &unread(case), &reading.tokens, fault),
        (None, Refusal::TooDeep) => push_too_deep(out, &reading.tokens),
        (None, _) => push_unspelled(alloc, out, &unread(case), &reading.tokens, reading.stop),
    }
}

/// Appends what is said of a name or of a count.
fn push_naming(
    alloc: Global,
    out: &mut String,
    visible: &Visible,
    case: &Case,
    reading: &Reading,
) -> Result<(), Memory> {
    let tokens = reading.tokens.as_slice();
    match case.why {
        Refusal::UnknownTable => push_unknown_table(alloc, out, visible, tokens),
        Refusal::TableExists => push_table_exists(out, visible, tokens),
        Refusal::UnknownColumn => push_unknown_column(alloc, out, visible, tokens),
        Refusal::AmbiguousColumn => push_ambiguous_column(alloc, out, visible, tokens),
        Refusal::DuplicateName => push_duplicate_name(alloc, out, tokens),
        Refusal::ColumnCount => push_column_count(alloc, out, visible, tokens),
        _ => Ok(()),
    }
}

/// Appends why a statement was refused.
fn push_cause(
    alloc: Global,
    out: &mut String,
    context: &Context,
    opened: &Opened,
    case: &Case,
    reading: &Reading,
) -> Result<(), Memory> {
    let tokens = reading.tokens.as_slice();
    match case.why {
        Refusal::NotAStatement | Refusal::NumberRange | Refusal::TooDeep => {
            push_unread(alloc, out, case, reading)
        }
        Refusal::InTransaction => push_in_transaction(out, case),
        Refusal::NoTransaction => Ok(out.push_str("no transaction is open: write BEGIN first")?),
        Refusal::TooLarge => push_too_large(alloc, out, context.known, tokens),
        Refusal::Full => push_full(out, context),
        Refusal::Inconsistent { .. } => push_inconsistent(
            alloc, out, context, opened, case, tokens,
        ),
        Refusal::Conflict { table, now, .. } => push_conflict(out, case, table, *now),
        Refusal::Memory => {
            Ok(out.push_str("give the program more memory, or run fewer files at once")?)
        }
        _ => {
            let visible = Visible {
                known: context.known,
                own: opened.tables(),
                version: case.version as usize,
            };
            push_naming(alloc, out, &visible, case, reading)
        }
    }
}

/// What is said of a refused statement: why, and how the statement begins.
///
/// # Errors
/// `Memory` where there is none for the text.
pub fn sentence(
    alloc: Global,
    context: &Context,
    opened: &Opened,
    case: &Case,
    reading: &Reading,
) -> Result<String, Memory> {
    let mut out = String::new(alloc);
    push_cause(alloc, &mut out, context, opened, case, reading)?;
    out.push_str(": ")?;
    out.push_str(cut(alloc, case.text.text)?.as_str())?;
    Ok(out)
}
