// The summary of the sessions of generated scripts.

ghost use Rattle.std.specs.Prelude.{◌≡◌, length, not, slice_get, count_by, IfOk};
ghost use Rattle.ct_transcript.specs.NodeText.{is_false_node};
ghost use Rattle.ct_transcript.specs.Text.{answer_row_lines, printed_answer};
ghost use Rattle.ct_run.specs.Runs.{is_refusal};
ghost use Rattle.ct_run.specs.Summary.{rows_under, possible_under, certain_under, of_last, session_line, summary};

use crate::printing::{Sought, is_sought};
use ct_transcript::{Answer, Node, Reply, SessionLog, Transcript};
use ct_word::{Memory, Text};
use std::alloc::Global;

fn is_printed(nodes: &[Node], condition: u32) -> bool
    ensures { result ≡ not (is_false_node (slice_get nodes.now condition)) }
{
    !matches!(nodes.get(condition as usize), Some(Node::False))
}

/// How many rows of an answer are printed.
fn printed_rows(answer: &Answer) -> usize
    ensures { result ≡ length (answer_row_lines answer.now.nodes (printed_answer answer.now) answer.now.rows) }
{
    let nodes = answer.nodes.as_slice();
    let rows = answer.rows.as_slice().iter();
    rows.filter(|row| is_printed(nodes, row.cond)).count()
}

fn rows_under(reply: &Reply) -> Option<usize>
    ensures { result ≡ rows_under reply.now }
{
    match reply {
        Reply::Rows { answer, .. } => Some(printed_rows(answer)),
        _ => None,
    }
}

fn possible_under(reply: &Reply) -> Option<usize>
    ensures { result ≡ possible_under reply.now }
{
    match reply {
        Reply::Possible { rows, .. } => Some(rows.len()),
        _ => None,
    }
}

fn certain_under(reply: &Reply) -> Option<usize>
    ensures { result ≡ certain_under reply.now }
{
    match reply {
        Reply::Certain { rows, .. } => Some(rows.len()),
        _ => None,
    }
}

/// How many replies are refusals.
fn refusals(replies: &[Reply]) -> usize
    ensures { result ≡ count_by is_refusal replies.now }
{
    let replies = replies.iter();
    replies
        .filter(|reply| is_sought(reply, Sought::Refusal))
        .count()
}

/// How many rows are printed under the last Rows reply.
fn last_rows(replies: &[Reply]) -> usize
    ensures { result ≡ of_last rows_under replies.now }
{
    let replies = replies.iter();
    replies.fold(0, |last, reply| rows_under(reply).unwrap_or(last))
}

/// How many rows are printed under the last Possible reply.
fn last_possible(replies: &[Reply]) -> usize
    ensures { result ≡ of_last possible_under replies.now }
{
    let replies = replies.iter();
    replies.fold(0, |last, reply| possible_under(reply).unwrap_or(last))
}

/// How many rows are printed under the last Certain reply.
fn last_certain(replies: &[Reply]) -> usize
    ensures { result ≡ of_last certain_under replies.now }
{
    let replies = replies.iter();
    replies.fold(0, |last, reply| certain_under(reply).unwrap_or(last))
}

/// The line of session `s`.
fn session_line(alloc: Global, s: usize, session: &SessionLog) -> Result<Text, Memory>
    ensures { IfOk result (λ text. text ≡ session_line s session.now) }
{
    let replies = session.replies.as_slice();
    let statements = replies.len();
    let refused = refusals(replies);
    let rows = last_rows(replies);
    let possible = last_possible(replies);
    let certain = last_certain(replies);
    let line = format!(in alloc;
        "session {s}: {statements} statements, {refused} refused, {rows} rows, {possible} possible, {certain} certain\n"
    )?;
    Ok(Text::from_string(line))
}

/// The summary of a transcript, one entry a line with its line end: what the scripts were made with, a line for each
/// session, and how many commits there are.
///
/// # Errors
/// `Memory` where there is none for the text.
pub(crate) fn summary(alloc: Global, n: u32, transcript: &Transcript) -> Result<Vec<Text>, Memory>
    ensures { IfOk result (λ lines. lines.items ≡ summary n transcript.now) }
{
    let mut lines = Vec::new(alloc);
    lines.push(Text::from_string(format!(in alloc; "fill {n}\n")?))?;
    let sessions = transcript.sessions.as_slice();
    for (i, session) in sessions.iter().enumerate() {
        lines.push(session_line(alloc, i + 1, session)?)?;
    }
    let commits = transcript.history.len();
    lines.push(Text::from_string(format!(in alloc; "commits {commits}\n")?))?;
    Ok(lines)
}
