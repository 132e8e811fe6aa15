// Replies as they are printed.

ghost use Rattle.std.specs.Prelude.{◌≡◌, ◌+◌, ◌<◌, ◌^◌, not, List, [], ◌∷◌, ◌++◌, map, filter, slice_get, codes, string_bytes, IfOk};
ghost use Rattle.ct_transcript.specs.NodeText.{line, is_false_node, with_names};
ghost use Rattle.ct_transcript.specs.Text.{row_text, plus_text, head_text, global_lines, answer_row_lines, printed_answer, answer_lines, refusal_name, read_text, conflict_text, refusal_rest, reply_lines, numbered, replies_from};
ghost use Rattle.ct_print.specs.Written.{Appends, Adds};

use crate::listed::{push_certain_rows, push_possible_rows};
use crate::nodes::{is_false, is_true, names};
use crate::reply::{Answer, Refusal, Reply};
use crate::rows::{push_conditions, push_line, push_name_lines, push_row};
use crate::writing::push_root;
use ct_print::{push_names, push_text};
use ct_query::Read;
use ct_rewrite::{AnswerRow, Node};
use ct_word::{Memory, Text};
use std::alloc::Global;
use std::fmt::Write;

fn push_head(
    out: &mut String,
    word: &str,
    columns: &[Text],
    at: u32,
    plus: u32,
) -> Result<(), Memory>
    ensures { Appends result out.old out.new (head_text word.now columns.now at plus) }
{
    out.push_str(word)?;
    out.push_str(" ")?;
    push_names(out, columns)?;
    write!(out, " at {at}")?;
    if plus > 0 {
        write!(out, " plus {plus}")?;
    }
    Ok(())
}

fn push_global_line(
    alloc: Global,
    lines: &mut Vec<Text>,
    nodes: &[Node],
    names: &[Option<usize>],
    k: u32,
) -> Result<(), Memory>
    ensures { Adds result lines.old lines.new (global_lines nodes.now (with_names nodes.now names.now) k) }
{
    if is_true(nodes, k) {
        return Ok(());
    }
    let mut text = String::from_str(alloc, "  worlds where ")?;
    push_root(alloc, &mut text, nodes, names, k)?;
    push_line(lines, text)
}

fn push_row_line(
    alloc: Global,
    lines: &mut Vec<Text>,
    nodes: &[Node],
    names: &[Option<usize>],
    row: &AnswerRow,
) -> Result<(), Memory>
    ensures { Adds result lines.old lines.new (line (codes "  " ++ row_text nodes.now (with_names nodes.now names.now) row.now) ∷ []) }
{
    let mut text = String::from_str(alloc, "  ")?;
    push_row(alloc, &mut text, nodes, names, row)?;
    push_line(lines, text)
}

fn push_row_lines(
    alloc: Global,
    lines: &mut Vec<Text>,
    nodes: &[Node],
    names: &[Option<usize>],
    rows: &[AnswerRow],
) -> Result<(), Memory>
    ensures { Adds result lines.old lines.new (answer_row_lines nodes.now (with_names nodes.now names.now) rows.now) }
{
    for row in rows {
        if !is_false(nodes, row.cond) {
            push_row_line(alloc, lines, nodes, names, row)?;
        }
    }
    Ok(())
}

fn answer_references(alloc: Global, answer: &Answer) -> Result<Vec<u32>, Memory>
    ensures { IfOk result (λ ks. ks.items ≡ map (λ r. r.cond) answer.now.rows ++ answer.now.global ∷ []) }
{
    let mut references = Vec::new(alloc);
    push_conditions(&mut references, answer.rows.as_slice())?;
    references.push(answer.global)?;
    Ok(references)
}

fn answer_names(alloc: Global, answer: &Answer) -> Result<Vec<Option<usize>>, Memory>
    ensures { IfOk result (λ names. with_names answer.now.nodes names.items ≡ printed_answer answer.now) }
{
    let references = answer_references(alloc, answer)?;
    names(alloc, answer.nodes.as_slice(), &references)
}

fn push_answer_lines(
    alloc: Global,
    lines: &mut Vec<Text>,
    answer: &Answer,
    names: &[Option<usize>],
) -> Result<(), Memory>
    ensures { Adds result lines.old lines.new (answer_lines answer.now (with_names answer.now.nodes names.now)) }
{
    let nodes = answer.nodes.as_slice();
    push_name_lines(alloc, lines, nodes, names)?;
    push_global_line(alloc, lines, nodes, names, answer.global)?;
    push_row_lines(alloc, lines, nodes, names, answer.rows.as_slice())
}

fn push_answer(alloc: Global, lines: &mut Vec<Text>, answer: &Answer) -> Result<(), Memory>
    ensures { Adds result lines.old lines.new (answer_lines answer.now (printed_answer answer.now)) }
{
    let names = answer_names(alloc, answer)?;
    push_answer_lines(alloc, lines, answer, &names)
}

/// The name of a refusal, as a transcript prints it.
pub fn refusal_name(refusal: &Refusal) -> &'static str
    ensures { result.now ≡ refusal_name refusal.now }
{
    match refusal {
        Refusal::NotAStatement => "NotAStatement",
        Refusal::TooDeep => "TooDeep",
        Refusal::NumberRange => "NumberRange",
        Refusal::InTransaction => "InTransaction",
        Refusal::NoTransaction => "NoTransaction",
        Refusal::UnknownTable => "UnknownTable",
        Refusal::TableExists => "TableExists",
        Refusal::UnknownColumn => "UnknownColumn",
        Refusal::AmbiguousColumn => "AmbiguousColumn",
        Refusal::DuplicateName => "DuplicateName",
        Refusal::ColumnCount => "ColumnCount",
        Refusal::TooLarge => "TooLarge",
        Refusal::Full => "Full",
        Refusal::Inconsistent { .. } => "Inconsistent",
        Refusal::Conflict { .. } => "Conflict",
        Refusal::Memory => "Memory",
    }
}

fn read_name(read: &Read) -> &str
    ensures { result.now ≡ read_text read.now }
{
    match read {
        Read::Table(name) => name.as_str(),
        Read::Worlds => "worlds",
    }
}

fn push_conflict(out: &mut String, table: &Read, was: u32, now: u32, at: u32) -> Result<(), Memory>
    ensures { Appends result out.old out.new (conflict_text table.now was now at) }
{
    let name = read_name(table);
    write!(out, " {name} was {was} now {now} at {at}")?;
    Ok(())
}

fn push_refusal(out: &mut String, refusal: &Refusal) -> Result<(), Memory>
    ensures { Appends result out.old out.new (refusal_name refusal.now ++ refusal_rest refusal.now) }
{
    out.push_str(refusal_name(refusal))?;
    match refusal {
        Refusal::Conflict {
            table,
            was,
            now,
            at,
        } => push_conflict(out, table, *was, *now, *at),
        _ => Ok(()),
    }
}

// Appends the first line of a reply, without its statement's number and its line end.
fn push_first(out: &mut String, reply: &Reply) -> Result<(), Memory>
    ensures { Appends result out.old out.new (reply_lines reply.now).0 }
{
    match reply {
        Reply::Begun { at } => Ok(write!(out, "begun at {at}")?),
        Reply::RolledBack => push_text(out, "rolled back"),
        Reply::Pending { at, plus } => Ok(write!(out, "pending at {at} plus {plus}")?),
        Reply::Committed { at } => Ok(write!(out, "committed {at}")?),
        Reply::Nothing { at } => Ok(write!(out, "nothing to commit at {at}")?),
        Reply::Rows { at, plus, answer } => {
            push_head(out, "rows", answer.columns.as_slice(), *at, *plus)
        }
        Reply::Possible {
            at,
            plus,
            columns,
            ..
        } => push_head(out, "possible", columns.as_slice(), *at, *plus),
        Reply::Certain {
            at,
            plus,
            columns,
            ..
        } => push_head(out, "certain", columns.as_slice(), *at, *plus),
        Reply::Refused { why, .. } => {
            out.push_str("refused ")?;
            push_refusal(out, why)
        }
    }
}

// Adds the lines of a reply after its first.
fn push_rest(alloc: Global, lines: &mut Vec<Text>, reply: &Reply) -> Result<(), Memory>
    ensures { Adds result lines.old lines.new (reply_lines reply.now).1 }
{
    match reply {
        Reply::Rows { answer, .. } => push_answer(alloc, lines, answer),
        Reply::Possible { rows, .. } => push_possible_rows(alloc, lines, rows.as_slice()),
        Reply::Certain { rows, .. } => push_certain_rows(alloc, lines, rows.as_slice()),
        _ => Ok(()),
    }
}

fn push_reply(alloc: Global, lines: &mut Vec<Text>, k: usize, reply: &Reply) -> Result<(), Memory>
    ensures { Adds result lines.old lines.new (numbered k (reply_lines reply.now)) }
{
    let mut first = format!(in alloc; "{k} ")?;
    push_first(&mut first, reply)?;
    push_line(lines, first)?;
    push_rest(alloc, lines, reply)
}

/// Adds the lines of the replies, which count from 1.
pub(crate) fn push_replies(
    alloc: Global,
    lines: &mut Vec<Text>,
    replies: &[Reply],
) -> Result<(), Memory>
    ensures { Adds result lines.old lines.new (replies_from 1 replies.now) }
{
    for (i, reply) in replies.iter().enumerate() {
        push_reply(alloc, lines, i + 1, reply)?;
    }
    Ok(())
}
