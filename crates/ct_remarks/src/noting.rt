// Notes on statements that were answered, and on the ends of scripts.

ghost use Rattle.std.specs.Prelude.{◌≤◌, length, IfOk, OnOk};

use crate::places::{Placed, statement_texts};
use crate::shown::push_shown;
use crate::transactions::begun_at_end;
use ct_advice::{BareAlias, bare_alias, broken_text};
use ct_lex::{LexError, Token, tokens};
use ct_transcript::{Reply, SessionLog, Transcript};
use ct_word::{List, Memory, Text};
use std::alloc::Global;
use std::fmt::Write;

/// How many notes there are at most.
const MOST: usize = 100;

/// What the replies of a session show.
#[derive(Clone, Copy)]
struct Shown {
    has_refusal: bool,
    has_answer: bool,
    /// The position of the BEGIN of the transaction within which the script ends.
    begun: Option<usize>,
}

/// Whether a statement was asked for rows, and has them.
fn is_answer(reply: &Reply) -> bool {
    matches!(
        reply,
        Reply::Rows { .. } | Reply::Possible { .. } | Reply::Certain { .. }
    )
}

fn is_refused(reply: &Reply) -> bool {
    matches!(reply, Reply::Refused { .. })
}

fn shown_by(replies: &[Reply]) -> Shown {
    Shown {
        has_refusal: replies.iter().any(is_refused),
        has_answer: replies.iter().any(is_answer),
        begun: begun_at_end(replies),
    }
}

/// A script with the name of its file, and a place of it with its line.
#[derive(Clone, Copy)]
struct Page<'a> {
    name: &'a str,
    script: &'a str,
    at: usize,
    line: usize,
}

impl Page<'_> {
    /// Goes on to a place, which does not stand before the one of the last call. Returns its line.
    fn line_at(&mut self, to: usize) -> usize {
        if let Some(bytes) = self.script.as_bytes().get(self.at..to) {
            let ends = bytes.iter().filter(|byte| **byte == b'\n').count();
            self.line = self.line.saturating_add(ends);
            self.at = to;
        }
        self.line
    }
}

/// Adds a note on a line of a file.
fn push_note(
    alloc: Global,
    lines: &mut Vec<Text>,
    name: &str,
    line: usize,
    said: &str,
) -> Result<(), Memory>
    requires most { length lines.old.items ≤ 100 }
    ensures most { OnOk result (length lines.new.items ≤ 100) }
{
    if lines.len() >= MOST {
        return Ok(());
    }
    let mut out = String::new(alloc);
    push_shown(&mut out, name)?;
    write!(out, ":{line}: note: {said}")?;
    lines.push(Text::from_string(out))?;
    Ok(())
}

/// Adds what is to be noted of the tokens of a statement that stands at a place.
fn push_token_notes(
    alloc: Global,
    lines: &mut Vec<Text>,
    page: &mut Page,
    at: usize,
    tokens: &[Token],
    has_refusal: bool,
) -> Result<(), Memory>
    requires most { length lines.old.items ≤ 100 }
    ensures most { OnOk result (length lines.new.items ≤ 100) }
{
    if let Some(found) = bare_alias(alloc, tokens)? {
        let line = page.line_at(at.saturating_add(found.start as usize));
        let BareAlias {
            alias,
            table,
            said,
            ..
        } = found;
        let said = format!(in alloc; "{alias} is read as the alias of {table}: {said}")?;
        push_note(alloc, lines, page.name, line, said.as_str())?;
    }
    if let (true, Some(start)) = (has_refusal, broken_text(tokens)) {
        let line = page.line_at(at.saturating_add(start as usize));
        let said = "the text that begins here goes on in the next line";
        push_note(alloc, lines, page.name, line, said)?;
    }
    Ok(())
}

/// Whether a text may have a text literal that goes on in the next line.
fn may_break(text: &Placed) -> bool {
    let lead = text.first.saturating_sub(text.at);
    match text.text.as_bytes().get(lead..) {
        Some(bytes) => bytes.contains(&b'\n') && bytes.contains(&b'\''),
        None => false,
    }
}

/// Adds what is to be noted of a statement that was not refused.
fn push_statement_notes(
    alloc: Global,
    lines: &mut Vec<Text>,
    page: &mut Page,
    text: &Placed,
    reply: &Reply,
    has_refusal: bool,
) -> Result<(), Memory>
    requires most { length lines.old.items ≤ 100 }
    ensures most { OnOk result (length lines.new.items ≤ 100) }
{
    if is_refused(reply) || !(is_answer(reply) || has_refusal && may_break(text)) {
        return Ok(());
    }
    match tokens(alloc, text.text) {
        Ok(tokens) => push_token_notes(alloc, lines, page, text.at, &tokens, has_refusal),
        Err(LexError::Memory) => Err(Memory),
        Err(_) => Ok(()),
    }
}

fn push_session_notes(
    alloc: Global,
    lines: &mut Vec<Text>,
    name: &str,
    log: &SessionLog,
) -> Result<(), Memory>
    requires most { length lines.old.items ≤ 100 }
    ensures most { OnOk result (length lines.new.items ≤ 100) }
{
    let replies = log.replies.as_slice();
    let shown = shown_by(replies);
    if !shown.has_refusal && !shown.has_answer && shown.begun.is_none() {
        return Ok(());
    }
    let script = log.script.as_str();
    let texts = statement_texts(alloc, script)?;
    let mut page = Page {
        name,
        script,
        at: 0,
        line: 1,
    };
    for (text, reply) in texts.iter().zip(replies) {
        push_statement_notes(alloc, lines, &mut page, text, reply, shown.has_refusal)?;
    }
    push_end_note(alloc, lines, page, shown.begun, &texts)
}

/// Adds a note where a script ends within a transaction.
fn push_end_note(
    alloc: Global,
    lines: &mut Vec<Text>,
    page: Page,
    begun: Option<usize>,
    texts: &[Placed],
) -> Result<(), Memory>
    requires most { length lines.old.items ≤ 100 }
    ensures most { OnOk result (length lines.new.items ≤ 100) }
{
    let Some(begun) = begun else {
        return Ok(());
    };
    let mut from_start = Page {
        at: 0,
        line: 1,
        ..page
    };
    let line = match texts.get(begun) {
        Some(text) => from_start.line_at(text.first),
        None => 1,
    };
    let said = "the file ends within the transaction that begins here: its changes are given up";
    push_note(alloc, lines, page.name, line, said)
}

/// Notes on what a reader may not expect, one line each without its line end: an alias that begins a join or a clause in
/// SQL, a text that goes on in the next line in a script with a refused statement, and a script that ends within a
/// transaction. There are at most 100.
///
/// # Errors
/// `Memory` where there is none for the text.
pub fn notes(alloc: Global, transcript: &Transcript, names: &[&str]) -> Result<List<Text>, Memory>
    ensures most { IfOk result (λ lines. length lines ≤ 100) }
{
    let mut lines = Vec::new(alloc);
    for (log, name) in transcript.sessions.as_slice().iter().zip(names) {
        push_session_notes(alloc, &mut lines, name, log)?;
    }
    Ok(List::from_vec(lines))
}
