// What is said of transactions, of assertions and of a full log.

use crate::cases::Case;
use crate::context::Context;
use crate::transactions::Opened;
use ct_advice::{Asserted, asserted_by, asserting, is_false_alone};
use ct_lex::Token;
use ct_query::Read;
use ct_word::Memory;
use std::alloc::Global;
use std::fmt::Write;

/// The number of the statement that began the transaction which is open before a refused one.
fn begin_of(case: &Case) -> Option<usize> {
    let begun = case.begun?;
    Some(begun.saturating_add(1))
}

pub fn push_in_transaction(out: &mut String, case: &Case) -> Result<(), Memory> {
    match begin_of(case) {
        Some(begin) => write!(
            out,
            "a transaction is open since statement {begin}: COMMIT or ROLLBACK it first"
        )?,
        None => out.push_str("a transaction is open: COMMIT or ROLLBACK it first")?,
    }
    Ok(())
}

pub fn push_full(out: &mut String, context: &Context) -> Result<(), Memory> {
    let words = context.words;
    write!(
        out,
        "the log is full with {words} words, for the rest of the run: --arena N gives more"
    )?;
    Ok(())
}

pub fn push_conflict(out: &mut String, case: &Case, table: &Read, now: u32) -> Result<(), Memory> {
    match table {
        Read::Table(name) => {
            let name = name.as_str();
            write!(out, "commit {now} has changed {name}")?;
        }
        Read::Worlds => write!(out, "commit {now} has made an assertion")?,
    }
    match begin_of(case) {
        Some(begin) => write!(
            out,
            "; the transaction of statement {begin} is over: begin again"
        )?,
        None => out.push_str("; make the change again")?,
    }
    Ok(())
}

/// What is said of an assertion over tables which no world satisfies that is left.
fn over_tables(tokens: &[Token]) -> Option<&'static str> {
    match asserted_by(tokens) {
        Asserted::Condition => None,
        Asserted::Exists => Some("the query has no row in any world that is left"),
        Asserted::NotExists => Some("the query has a row in each world that is left"),
        Asserted::Key => {
            Some("two different rows agree in these columns, in each world that is left")
        }
    }
}

/// Appends how to take back what the open transaction asserted, where it did.
fn push_way_back(out: &mut String, opened: &Opened) -> Result<(), Memory> {
    if opened.has_asserted() {
        out.push_str("; ROLLBACK takes back what this transaction asserted")?;
    }
    Ok(())
}

/// An assertion of a condition is false by itself where nothing was asserted of its nulls before, or where that is seen at
/// once.
pub fn push_inconsistent(
    alloc: Global,
    out: &mut String,
    context: &Context,
    opened: &Opened,
    case: &Case,
    tokens: &[Token],
) -> Result<(), Memory> {
    if let Some(said) = over_tables(tokens) {
        out.push_str(said)?;
        return push_way_back(out, opened);
    }
    out.push_str("no values satisfy it")?;
    let commits = asserting(alloc, context.known, case.version as usize, tokens)?;
    let is_first = commits.is_empty() && !opened.has_asserted_of(tokens);
    if is_first || is_false_alone(alloc, tokens)? {
        out.push_str(", even by itself")?;
        return Ok(());
    }
    out.push_str(" with what was asserted before")?;
    for (i, number) in commits.iter().enumerate() {
        let before = if i == 0 { ", in commit " } else { ", " };
        write!(out, "{before}{number}")?;
    }
    push_way_back(out, opened)
}
