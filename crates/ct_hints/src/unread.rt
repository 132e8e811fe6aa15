// What is said of a text that could not be read.

use crate::grammar::{TABLES, is_crowded};
use crate::hints::{ESCAPE, GRAMMAR, instead_of, stray};
use crate::slips::{Slip, find_slip};
use ct_advice::{Fault, FaultAt, broken_text};
use ct_lex::Token;
use ct_word::Memory;
use std::alloc::Global;
use std::fmt::Write;

/// How many characters of a token are repeated.
const LENGTH: usize = 24;

/// What is asked of a text that goes on in the next line.
const MISSING: &str = ": is a quote missing?";

/// A statement's text, how many bytes stand before its first token, and the line and the column of that token.
#[derive(Clone, Copy)]
pub struct Unread<'a> {
    pub text: &'a str,
    pub lead: usize,
    pub line: usize,
    pub column: usize,
}

/// A line and a column, which counts characters; both from 1 on.
#[derive(Clone, Copy)]
struct Place {
    line: usize,
    column: usize,
}

/// The place behind a byte of this place.
fn behind(place: Place, byte: u8) -> Place {
    match byte {
        b'\n' => Place {
            line: place.line.saturating_add(1),
            column: 1,
        },
        128..=191 => place,
        _ => Place {
            line: place.line,
            column: place.column.saturating_add(1),
        },
    }
}

/// Where a place of the text stands that is given in bytes from its beginning.
fn place_of(unread: &Unread, at: usize) -> Place {
    let mut place = Place {
        line: unread.line,
        column: unread.column,
    };
    let bytes = unread.text.as_bytes().get(unread.lead..at).unwrap_or(&[]);
    for byte in bytes {
        place = behind(place, *byte);
    }
    place
}

/// The place of the first quote of a text.
fn first_quote(text: &str) -> Option<usize> {
    text.as_bytes().iter().position(|byte| *byte == b'\'')
}

fn is_letter(byte: u8) -> bool {
    matches!(byte, b'a'..=b'z' | b'A'..=b'Z')
}

/// Whether a quote stands between two letters, as in 'O'Brien'.
fn has_inner_quote(bytes: &[u8]) -> bool {
    bytes.windows(3).any(|three| matches!(three, [a, b'\'', c] if is_letter(*a) && is_letter(*c)))
}

/// Whether a quote stands between a backslash and a letter, as in 'O\'Brien'.
fn has_escaped_quote(bytes: &[u8]) -> bool {
    bytes.windows(3).any(|three| matches!(three, [b'\\', b'\'', c] if is_letter(*c)))
}

/// Appends that a text goes on in the next line, which begins at this place.
fn push_broken(out: &mut String, unread: &Unread, start: u64) -> Result<(), Memory> {
    let Place { line, column } = place_of(unread, start as usize);
    write!(
        out,
        "the text that begins in {line}:{column} goes on in the next line"
    )?;
    Ok(())
}

/// Appends that a quote is open, where these tokens stand before it.
fn push_open(out: &mut String, unread: &Unread, tokens: &[Token], at: usize) -> Result<(), Memory> {
    out.push_str("a quote is open, so the rest of the file was read as text; ")?;
    let broken = broken_text(tokens);
    let end = match broken {
        Some(start) => start as usize,
        None => at,
    };
    let before = unread.text.as_bytes().get(..end).unwrap_or(&[]);
    let (is_escaped, is_inner) = (has_escaped_quote(before), has_inner_quote(before));
    if let (false, Some(start)) = (is_escaped || is_inner, broken) {
        push_broken(out, unread, start)?;
        out.push_str(MISSING)?;
        return Ok(());
    }
    let Place { line, .. } = place_of(unread, first_quote(unread.text).unwrap_or(at));
    write!(out, "the first quote of the statement is in line {line}")?;
    if is_escaped {
        write!(out, "; {ESCAPE}")?;
    } else if is_inner {
        out.push_str("; a quote within a text is written twice, as 'O''Brien'")?;
    }
    Ok(())
}

/// Appends what is said of a character that begins no token, where these tokens stand before it.
fn push_stray(out: &mut String, unread: &Unread, tokens: &[Token], c: char) -> Result<(), Memory> {
    write!(out, "{c} begins nothing: ")?;
    match broken_text(tokens) {
        Some(start) => {
            push_broken(out, unread, start)?;
            out.push_str(MISSING)?;
        }
        None => {
            let said = stray(c);
            write!(out, "{said} (docs/SQL.md, What is not there)")?;
        }
    }
    Ok(())
}

/// Appends what is said of a place where no token can be read, and before which these tokens stand.
///
/// # Errors
/// `Memory` where there is none for the text.
pub fn push_fault(
    out: &mut String,
    unread: &Unread,
    tokens: &[Token],
    fault: FaultAt,
) -> Result<(), Memory> {
    match fault.fault {
        Fault::Open => push_open(out, unread, tokens, fault.at),
        Fault::Number(length) => push_number(out, unread, fault.at, length),
        Fault::Stray(c) => push_stray(out, unread, tokens, c),
    }
}

/// Appends what is said of a number that is out of range.
fn push_number(out: &mut String, unread: &Unread, at: usize, length: usize) -> Result<(), Memory> {
    push_cut(
        out,
        unread.text.get(at..at.saturating_add(length)).unwrap_or(""),
    )?;
    out.push_str(
        " is outside -9223372036854775808 to 9223372036854775807: write it as a text, everywhere",
    )?;
    Ok(())
}

/// Appends the beginning of a token.
fn push_cut(out: &mut String, spelled: &str) -> Result<(), Memory> {
    for (i, c) in spelled.chars().enumerate() {
        if i >= LENGTH {
            out.push_str("..")?;
            break;
        }
        out.push(c)?;
    }
    Ok(())
}

/// Appends at which token reading stopped, where `stop` is its position, or that there is none left.
fn push_stop(
    out: &mut String,
    unread: &Unread,
    tokens: &[Token],
    stop: usize,
) -> Result<(), Memory> {
    match tokens.get(stop) {
        Some(token) => {
            let spelled = unread.text.get(token.start as usize..token.end as usize);
            push_cut(out, spelled.unwrap_or(""))?;
            out.push_str(" does not fit here")?;
        }
        None => out.push_str("the statement ends too early")?,
    }
    Ok(())
}

/// The first text up to a token that goes on in the next line: its place in bytes.
fn broken_before(tokens: &[Token], stop: usize) -> Option<u64> {
    broken_text(tokens.get(..stop)?)
}

/// Appends which keyword is misspelt.
fn push_slip(out: &mut String, slip: Slip) -> Result<(), Memory> {
    out.push_str(": is ")?;
    for c in slip.keyword.chars() {
        out.push(c.to_ascii_uppercase())?;
    }
    let word = slip.word;
    write!(out, " meant by {word}? (docs/SQL.md, {GRAMMAR})")?;
    Ok(())
}

/// Appends what to write instead of tokens, no text of which goes on in the next line before `stop`.
fn push_hint(
    alloc: Global,
    out: &mut String,
    unread: &Unread,
    tokens: &[Token],
    stop: usize,
) -> Result<(), Memory> {
    push_stop(out, unread, tokens, stop)?;
    if let Some(slip) = find_slip(alloc, tokens, stop)? {
        return push_slip(out, slip);
    }
    match instead_of(alloc, tokens, stop)? {
        Some(found) => {
            let said = found.said;
            let part = found.part;
            write!(out, ": {said} (docs/SQL.md, {part})")?;
        }
        None => write!(out, " (docs/SQL.md, {GRAMMAR})")?,
    }
    Ok(())
}

/// Appends what is said of tokens that spell no statement, where reading stopped at the token at `stop`, or behind the last
/// one. Of a text that goes on in the next line nothing else is said where it stands before that, and else it is said last.
///
/// # Errors
/// `Memory` where there is none for the text.
pub fn push_unspelled(
    alloc: Global,
    out: &mut String,
    unread: &Unread,
    tokens: &[Token],
    stop: usize,
) -> Result<(), Memory> {
    if let Some(start) = broken_before(tokens, stop) {
        push_stop(out, unread, tokens, stop)?;
        out.push_str(": ")?;
        push_broken(out, unread, start)?;
        out.push_str(MISSING)?;
        return Ok(());
    }
    if is_crowded(alloc, tokens, stop)? {
        write!(
            out,
            "a FROM has at most {TABLES} tables (docs/SQL.md, {GRAMMAR})"
        )?;
        return Ok(());
    }
    push_hint(alloc, out, unread, tokens, stop)?;
    if let Some(start) = broken_text(tokens) {
        out.push_str("; ")?;
        push_broken(out, unread, start)?;
    }
    Ok(())
}
