// Lines, and the lines and rows that answers and commits have in common.

ghost use Rattle.std.specs.Prelude.{◌≡◌, List, [], ◌∷◌, ◌++◌, map, flat_map, slice_get, option_to_list, codes, string_bytes};
ghost use Rattle.std.specs.List.{join_by};
ghost use Rattle.ct_transcript.specs.NodeText.{line, name_lines, with_names};
ghost use Rattle.ct_transcript.specs.Text.{row_text, rows_text};
ghost use Rattle.ct_print.specs.Written.{Appends, Adds};

use crate::nodes::named_at;
use crate::writing::{push_text_at, push_unless_true};
use ct_print::{push_cells, push_separator, push_text};
use ct_rewrite::{AnswerRow, Node};
use ct_word::{Memory, Text};
use std::alloc::Global;

/// Adds a line, whose end this call writes.
pub(crate) fn push_line(lines: &mut Vec<Text>, mut text: String) -> Result<(), Memory>
    ensures { Adds result lines.old lines.new (line (string_bytes text) ∷ []) }
{
    text.push_str("\n")?;
    lines.push(Text::from_string(text))?;
    Ok(())
}

fn push_name_line(
    alloc: Global,
    lines: &mut Vec<Text>,
    nodes: &[Node],
    names: &[Option<usize>],
    k: usize,
) -> Result<(), Memory>
    ensures { Adds result lines.old lines.new (name_lines (option_to_list (slice_get (with_names nodes.now names.now) k))) }
{
    let Some((_, Some(name))) = named_at(nodes, names, k) else {
        return Ok(());
    };
    let mut text = format!(in alloc; "  [{name}] is ")?;
    push_text_at(alloc, &mut text, nodes, names, k)?;
    push_line(lines, text)
}

/// Adds a line for each node that has a name.
pub(crate) fn push_name_lines(
    alloc: Global,
    lines: &mut Vec<Text>,
    nodes: &[Node],
    names: &[Option<usize>],
) -> Result<(), Memory>
    ensures { Adds result lines.old lines.new (name_lines (with_names nodes.now names.now)) }
{
    for k in 0..nodes.len() {
        push_name_line(alloc, lines, nodes, names, k)?;
    }
    Ok(())
}

/// Adds the position of each row's condition.
pub(crate) fn push_conditions(references: &mut Vec<u32>, rows: &[AnswerRow]) -> Result<(), Memory>
    ensures { Adds result references.old references.new (map (λ r. r.cond) rows.now) }
{
    for row in rows {
        references.push(row.cond)?;
    }
    Ok(())
}

/// Appends a row's cells and its condition.
pub(crate) fn push_row(
    alloc: Global,
    out: &mut String,
    nodes: &[Node],
    names: &[Option<usize>],
    row: &AnswerRow,
) -> Result<(), Memory>
    ensures { Appends result out.old out.new (row_text nodes.now (with_names nodes.now names.now) row.now) }
{
    push_cells(out, row.cells.as_slice())?;
    push_unless_true(alloc, out, nodes, names, " if ", row.cond)
}

fn push_joined_rows(
    alloc: Global,
    out: &mut String,
    nodes: &[Node],
    names: &[Option<usize>],
    rows: &[AnswerRow],
) -> Result<(), Memory>
    ensures { Appends result out.old out.new (join_by (row_text nodes.now (with_names nodes.now names.now)) (codes "; ") rows.now) }
{
    for (i, row) in rows.iter().enumerate() {
        push_separator(out, i, "; ")?;
        push_row(alloc, out, nodes, names, row)?;
    }
    Ok(())
}

/// Appends the rows of an insertion.
pub(crate) fn push_rows(
    alloc: Global,
    out: &mut String,
    nodes: &[Node],
    names: &[Option<usize>],
    rows: &[AnswerRow],
) -> Result<(), Memory>
    ensures { Appends result out.old out.new (rows_text nodes.now (with_names nodes.now names.now) rows.now) }
{
    if rows.is_empty() {
        push_text(out, "nothing")
    } else {
        push_joined_rows(alloc, out, nodes, names, rows)
    }
}
