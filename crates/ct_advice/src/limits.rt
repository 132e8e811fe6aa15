// What is said of queries that are too deep or too large, and which commits name the nulls of an assertion.

ghost use Rattle.std.specs.Prelude.{◌≤◌, length, IfOk};

use crate::asserted::{Asserted, asserted_by};
use crate::parts::{Select, selects};
use crate::tables::{KEPT, Known};
use crate::tokens::word;
use ct_lex::{Lexeme, Token};
use ct_word::Memory;
use std::alloc::Global;
use std::fmt::Write;

/// The greatest number of set operators, and of parentheses and NOTs in one another.
const DEPTH: usize = 64;

/// The greatest number of rows, or of pairs of rows, that a part of a query goes through.
const SIZE: u64 = 16_777_216;

/// How many set operators the tokens have.
fn operators(tokens: &[Token]) -> usize {
    let words = tokens.iter().map(word);
    words
        .filter(|word| matches!(*word, "union" | "except" | "intersect"))
        .count()
}

/// Appends by how much a text is too deep.
///
/// # Errors
/// `Memory` where there is none for the text.
pub fn push_too_deep(out: &mut String, tokens: &[Token]) -> Result<(), Memory> {
    let count = operators(tokens);
    if count > DEPTH {
        write!(
            out,
            "{count} set operators, and at most {DEPTH}: ask in several statements"
        )?;
    } else {
        write!(
            out,
            "more than {DEPTH} parentheses and NOTs in one another: a run of AND or of OR needs none"
        )?;
    }
    Ok(())
}

/// How many rows or pairs of rows a FROM goes through at most, by the rows that there ever were.
fn product(known: &Known, select: &Select) -> u128 {
    let mut all: u128 = 1;
    for seen in &select.tables {
        let rows = match known.tables.get(seen.table) {
            Some(made) => made.rows,
            None => 0,
        };
        all = all.saturating_mul(u128::from(rows));
    }
    all
}

/// Appends how large a query or the table of a key may be, and how large it is at most by the rows that there ever were.
///
/// # Errors
/// `Memory` where there is none for the text.
pub fn push_too_large(
    alloc: Global,
    out: &mut String,
    known: &Known,
    tokens: &[Token],
) -> Result<(), Memory> {
    let is_key = asserted_by(tokens) == Asserted::Key;
    write!(out, "at most {SIZE} rows or pairs of rows")?;
    let mut most: u128 = 0;
    for select in &selects(alloc, tokens)? {
        if !select.tables.is_empty() {
            let rows = product(known, select);
            most = most.max(if is_key {
                rows.saturating_mul(rows)
            } else {
                rows
            });
        }
    }
    if most > u128::from(SIZE) {
        write!(out, ", and here up to {most}")?;
    }
    out.push_str(if is_key {
        ": a key goes over all pairs of rows of its table"
    } else {
        ": insert what you select of one table into a table of its own, and join that"
    })?;
    Ok(())
}

/// Adds a number to a list that rises, where it is not there.
fn add_sorted(numbers: &mut Vec<usize>, number: usize) -> Result<(), Memory> {
    if numbers.contains(&number) {
        return Ok(());
    }
    numbers.push(number)?;
    numbers.sort_unstable();
    Ok(())
}

/// The first commits up to a version that have asserted something and name a null of these tokens, at most three.
///
/// # Errors
/// `Memory` where there is none for the list.
pub fn asserting(
    alloc: Global,
    known: &Known,
    version: usize,
    tokens: &[Token],
) -> Result<Vec<usize>, Memory>
    ensures most { IfOk result (λ found. length found.items ≤ 3) }
{
    let mut found = Vec::new(alloc);
    for token in tokens {
        let Lexeme::Null(name) = &token.word else {
            continue;
        };
        let Some(commits) = known.asserted.get(name.as_str()) else {
            continue;
        };
        for number in commits {
            if *number <= version {
                add_sorted(&mut found, *number)?;
            }
        }
    }
    found.truncate(KEPT);
    Ok(found)
}
